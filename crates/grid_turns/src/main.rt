//! How many turns of bridge search a grid of 65,536 points takes: the points (k mod 256, k / 256) are added to a
//! `HullTree` one by one, for k from 0 to 65535, and then removed in the same order.
//!
//! It writes, for the additions and for the removals, how many were made, how many of them took more than 10,000 turns,
//! which by the contracts of `add_counted` and `remove_counted` is none, and the most turns that one of them took.
#![tactic(auto)]

use hull_set::{AddReply, HullSet, POINT_LIMIT, RemoveReply};
use hull_tree::HullTree;
use lattice::Point;
use std::fmt;
use std::process::ExitCode;

/// How many points are in a row of the grid, and how many rows it has.
const SIDE: u32 = 256;

/// The greatest number of turns of a change.
const BOUND: u32 = 10000;

/// The turns of several changes.
#[derive(Clone, Copy)]
struct Turns {
    changes: u32,
    over: u32,
    most: u32,
}

impl Turns {
    /// Makes the count of no change.
    fn new() -> Turns {
        Turns {
            changes: 0,
            over: 0,
            most: 0,
        }
    }

    /// Counts one more change, which took this many turns.
    fn count(&mut self, turns: u32) {
        self.changes = self.changes.saturating_add(1);
        if turns > BOUND {
            self.over = self.over.saturating_add(1);
        }
        self.most = self.most.max(turns);
    }
}

impl fmt::Display for Turns {
    fn fmt<W: fmt::Write>(&self, f: &mut fmt::Formatter<W>) -> fmt::Result {
        let (changes, over, most) = (self.changes, self.over, self.most);
        write!(
            f,
            "{changes} changes, {over} of more than {BOUND} turns, most {most}"
        )
    }
}

/// Returns the point of the grid with this number.
fn grid_point(number: u32) -> Option<Point> {
    Point::new(i64::from(number % SIDE), i64::from(number / SIDE)).ok()
}

/// Adds all points of the grid. Returns the turns of the additions of new points.
fn add_grid(tree: &mut HullTree) -> Turns {
    let mut turns = Turns::new();
    for number in 0..SIDE * SIDE {
        let Some(p) = grid_point(number) else { break };
        let (reply, taken) = tree.add_counted(p);
        if reply == AddReply::Added {
            turns.count(taken);
        }
    }
    turns
}

/// Removes all points of the grid. Returns the turns of the removals of points of the set.
fn remove_grid(tree: &mut HullTree) -> Turns {
    let mut turns = Turns::new();
    for number in 0..SIDE * SIDE {
        let Some(p) = grid_point(number) else { break };
        let (reply, taken) = tree.remove_counted(p);
        if reply == RemoveReply::Removed {
            turns.count(taken);
        }
    }
    turns
}

fn main(rt: HostRuntime) -> ExitCode {
    let mut tree = HullTree::new(rt.alloc(), POINT_LIMIT);
    let added = add_grid(&mut tree);
    let live = tree.count();
    let removed = remove_grid(&mut tree);
    let left = tree.count();
    if println!(rt; "added: {added}\nlive: {live}\nremoved: {removed}\nlive: {left}").is_err() {
        return ExitCode::from(3);
    }
    ExitCode::SUCCESS
}
