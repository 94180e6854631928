//! The distances of a hull from segments, as known numbers, and how the two are to each other.
use super::meetings::polygon_of;
use hull_polygon::{Distance, Length, Relation, Rounded, SquaredDistance};
use lattice::Point;
use std::cmp::Ordering;
use std::process::Abort;
use std::test::Fail;

/// A square with sides of 4.
fn square() -> Result<[Point; 4], Fail> {
    Ok([
        Point::new(0, 0)?,
        Point::new(4, 0)?,
        Point::new(4, 4)?,
        Point::new(0, 4)?,
    ])
}

/// Returns the distance of the square from the segment between the points of four numbers.
fn distance_to(
    rt: &impl Abort,
    vertices: &[Point],
    from: (i64, i64),
    to: (i64, i64),
) -> Result<Distance, Fail> {
    let (a, b) = (Point::new(from.0, from.1)?, Point::new(to.0, to.1)?);
    match polygon_of(rt, vertices).distance_to_segment(a, b) {
        Some(distance) => Ok(distance),
        None => panic!(rt; "the square has corners"),
    }
}

#[test]
fn distances_as_numbers(rt: HostRuntime) -> Result<(), Fail> {
    let vertices = square()?;
    let five = distance_to(&rt, &vertices, (7, 8), (9, 8))?;
    let root_of_two = distance_to(&rt, &vertices, (5, 5), (5, 5))?;
    let exact = Rounded {
        lower: 5 << 50,
        upper: 5 << 50,
        shift: 50,
    };
    let between = Rounded {
        lower: 6369051672525772,
        upper: 6369051672525773,
        shift: 52,
    };
    assert!(rt; five.rounded() == exact && root_of_two.rounded() == between);
    let square = SquaredDistance {
        high: 0,
        middle: 0,
        low: 25,
        divisor_high: 0,
        divisor_low: 1,
    };
    assert!(rt; five.squared() == square);
    assert!(rt; five.compare(&root_of_two) == Ordering::Greater);
    assert!(rt; root_of_two.squared().compare(&five.squared()) == Ordering::Less);
    assert!(rt;
        five.compare(&five) == Ordering::Equal && Distance::Zero.compare(&five) == Ordering::Less
    );
    Ok(())
}

#[test]
fn a_square_beside_segments(rt: HostRuntime) -> Result<(), Fail> {
    let vertices = square()?;
    let polygon = polygon_of(&rt, &vertices);
    let (inside, beside, above) = (Point::new(1, 1)?, Point::new(7, 8)?, Point::new(0, 9)?);
    assert!(rt; polygon.relation_to_segment(inside, inside) == Relation::Covers);
    assert!(rt; polygon.relation_to_segment(beside, inside) == Relation::Overlapping);
    assert!(rt; polygon.relation_to_segment(beside, above) == Relation::Disjoint);
    assert!(rt; polygon.relation_to_segment(vertices[3], above) == Relation::Touching);
    let length = Length {
        numerator: 49,
        denominator: 10,
    };
    assert!(rt; !polygon.is_within_distance_of_segment(beside, beside, length));
    assert!(rt; polygon.is_within_distance_of_segment(beside, above, length));
    Ok(())
}
