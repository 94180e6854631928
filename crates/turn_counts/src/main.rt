//! How many turns of bridge search the changes of the two trees take: the greatest number of one change, and the mean.
//!
//! `turn_counts N..` adds N random points of the whole range to each tree (`build`), and then N times removes a random one and adds another
//! (`churn`), for each N from 1 to 1048576; 1000 if none is given. The points come from a fixed seed. Then it adds N points of a parabola from its
//! middle outwards, removes the outermost again and again, adds them from the ends inwards, and adds and removes a point far above all of them
//! (`outwards`, `outermost`, `inwards`, `spike`). The bound of one change is 10,000, by the contracts of `add_counted` and `remove_counted`.
#![tactic(auto)]

mod counted;
mod orders;
mod random;
mod tally;

use bucket_tree::BucketTree;
use counted::CountedSet;
use hull_set::POINT_LIMIT;
use hull_tree::HullTree;
use lattice::Point;
use orders::{add_inwards, add_outwards, change_spike, remove_outermost};
use random::Random;
use std::alloc::{AllocError, Global};
use std::env;
use std::process::ExitCode;
use std::rt::Env;
use tally::Tally;

/// Adds this many random points to the set, and to the list those that were new. Tallies the turns of these.
fn build<S: CountedSet>(
    set: &mut S,
    points: &mut Vec<Point>,
    count: u32,
    random: &mut Random,
) -> Result<Tally, AllocError> {
    let mut tally = Tally::new();
    for _ in 0..count {
        let Some(p) = random.point() else { break };
        let (was_added, turns) = set.add_counted(p);
        if was_added {
            points.push(p)?;
            tally.count(turns);
        }
    }
    Ok(tally)
}

/// Removes a random point and adds another, this many times.
fn churn<S: CountedSet>(
    set: &mut S,
    points: &mut Vec<Point>,
    count: u32,
    random: &mut Random,
) -> Tally {
    let mut tally = Tally::new();
    for _ in 0..count {
        let place = random.below(points.len());
        let Some(p) = random.point() else { break };
        let Some(old) = points.get_mut(place) else {
            break;
        };
        tally.count(set.remove_counted(*old));
        tally.count(set.add_counted(p).1);
        *old = p;
    }
    tally
}

/// Counts the turns of this many points in a set, and writes a line for the build and one for the churn.
fn measure<R: Print, S: CountedSet>(
    rt: &R,
    alloc: Global,
    mut set: S,
    count: u32,
) -> Result<(), AllocError> {
    let mut random = Random::new();
    let mut points = Vec::new(alloc);
    let built = build(&mut set, &mut points, count, &mut random)?;
    let _ = println!(rt; "build {count}: {built}");
    let churned = churn(&mut set, &mut points, count, &mut random);
    let _ = println!(rt; "churn {count}: {churned}");
    Ok(())
}

/// Counts the turns of this many points of a parabola in a set, and writes a line for each order of changes.
fn measure_orders<R: Print, S: CountedSet>(rt: &R, mut set: S, count: u32) {
    let outwards = add_outwards(&mut set, count);
    let _ = println!(rt; "outwards {count}: {outwards}");
    let outermost = remove_outermost(&mut set, count);
    let _ = println!(rt; "outermost {count}: {outermost}");
    let inwards = add_inwards(&mut set, count);
    let _ = println!(rt; "inwards {count}: {inwards}");
    let spike = change_spike(&mut set, count);
    let _ = println!(rt; "spike {count}: {spike}");
}

/// Counts the turns of this many points in both trees.
fn measure_both<R: Print>(rt: &R, alloc: Global, count: u32) -> Result<(), AllocError> {
    let _ = println!(rt; "each bridge searched");
    measure(rt, alloc, HullTree::new(alloc, POINT_LIMIT), count)?;
    measure_orders(rt, HullTree::new(alloc, POINT_LIMIT), count);
    let _ = println!(rt; "buckets, with bridges kept that stand");
    measure(rt, alloc, BucketTree::new(alloc, POINT_LIMIT), count)?;
    measure_orders(rt, BucketTree::new(alloc, POINT_LIMIT), count);
    Ok(())
}

fn main(rt: HostRuntime) -> ExitCode {
    let mut asked = false;
    if let Ok(words) = env::args(&rt) {
        for word in words.skip(1) {
            asked = true;
            match word.as_str().parse::<u32>() {
                Ok(count) if count <= POINT_LIMIT => {
                    if measure_both(&rt, rt.alloc(), count).is_err() {
                        return ExitCode::from(4);
                    }
                }
                _ => return ExitCode::from(2),
            }
        }
    }
    if !asked && measure_both(&rt, rt.alloc(), 1000).is_err() {
        return ExitCode::from(4);
    }
    ExitCode::SUCCESS
}
