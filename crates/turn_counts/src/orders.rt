use crate::counted::CountedSet;
use crate::tally::Tally;
use lattice::{COORDINATE_LIMIT, Point};

/// Returns a point of a parabola, numbered from its middle outwards, in turns on its right and on its left.
fn from_the_middle(number: u32) -> Option<Point> {
    let half = i64::from(number / 2);
    let x = if number % 2 == 0 { half } else { -1 - half };
    Point::new(x, x.checked_mul(x)?).ok()
}

/// Adds this many points of a parabola from its middle outwards.
pub fn add_outwards<S: CountedSet>(set: &mut S, count: u32) -> Tally {
    let mut tally = Tally::new();
    for number in 0..count {
        let Some(p) = from_the_middle(number) else {
            break;
        };
        tally.count(set.add_counted(p).1);
    }
    tally
}

/// Removes them again, the outermost first.
pub fn remove_outermost<S: CountedSet>(set: &mut S, count: u32) -> Tally {
    let mut tally = Tally::new();
    for number in 0..count {
        let Some(p) = from_the_middle(count - 1 - number) else {
            break;
        };
        tally.count(set.remove_counted(p));
    }
    tally
}

/// Adds them from the ends of the parabola inwards.
pub fn add_inwards<S: CountedSet>(set: &mut S, count: u32) -> Tally {
    let mut tally = Tally::new();
    for number in 0..count {
        let Some(p) = from_the_middle(count - 1 - number) else {
            break;
        };
        tally.count(set.add_counted(p).1);
    }
    tally
}

/// Adds a point far above all of them, and removes it again, this many times.
pub fn change_spike<S: CountedSet>(set: &mut S, count: u32) -> Tally {
    let mut tally = Tally::new();
    let Ok(tip) = Point::new(0, COORDINATE_LIMIT) else {
        return tally;
    };
    for _ in 0..count {
        tally.count(set.add_counted(tip).1);
        tally.count(set.remove_counted(tip));
    }
    tally
}
