//! Schedules over a book of the leaf tree, all of them for small scripts, and many random ones for larger scripts.
ghost use Rattle.std.specs.Prelude.{◌≤◌};

mod by_hand;
mod choice;
mod judge;
mod player;
mod refused;
mod schedule;

use choice::{Chance, EachWay};
use hull_book::Call;
use judge::{judge, judge_next};
use lattice::Point;
use schedule::{Game, play_once};
use std::alloc::{AllocError, Global};
use std::process::Abort;
use std::test::Fail;

/// More ways than any of the games here has.
const MOST_WAYS: u32 = 1_000_000;

/// The third number before the greatest is followed by one below the wrap.
const NEAR_WRAP: u64 = 18446744073709551613;

fn at(rt: &impl Abort, x: i64, y: i64) -> Point {
    match Point::new(x, y) {
        Ok(point) => point,
        Err(_) => panic!(rt; "{x} {y} is a point"),
    }
}

// Plays and judges each way to play the game. Returns how many there are.
fn try_each_way(rt: &impl Abort, alloc: Global, game: &Game, workers: u8) -> u32
    requires { (1 ≤ workers) × (workers ≤ 64) }
{
    let mut way = EachWay::new(Vec::new(alloc));
    let mut known = Vec::new(alloc);
    for tried in 0..MOST_WAYS {
        let end = play_once(rt, alloc, game, workers, &mut way);
        judge_next(rt, alloc, game, workers, end, &mut known);
        if !way.advance() {
            return tried + 1;
        }
    }
    panic!(rt; "there are more ways than were thought")
}

// Plays and judges the game this often, with random choices.
fn try_by_chance(rt: &impl Abort, alloc: Global, game: &Game, workers: u8, seed: u64, times: u32)
    requires { (1 ≤ workers) × (workers ≤ 64) }
{
    let mut chance = Chance::new(seed);
    for _ in 0..times {
        let end = play_once(rt, alloc, game, workers, &mut chance);
        judge(rt, alloc, game, workers, &end);
    }
}

// Returns a game of three players with two calls each, or the third with only its first: points that are added and removed, and questions about all
// of them.
fn three_players(
    rt: &impl Abort,
    alloc: Global,
    first: u64,
    misses: u32,
    calls_of_the_third: usize,
) -> Result<Game, AllocError> {
    let zero = Vec::from_array(alloc, [Call::Add(at(rt, 0, 0)), Call::Vertices])?;
    let one = Vec::from_array(alloc, [Call::Add(at(rt, 4, 0)), Call::Remove(at(rt, 0, 0))])?;
    let mut two = Vec::from_array(alloc, [Call::Add(at(rt, 0, 4)), Call::Area])?;
    two.truncate(calls_of_the_third);
    Ok(Game {
        calls: Vec::from_array(alloc, [zero, one, two])?,
        first,
        capacity: 64,
        misses,
    })
}

/// All 23310 ways in which three players can make two calls each without a miss, across the wrap.
#[test]
fn every_way_of_three_players(rt: HostRuntime) -> Result<(), Fail> {
    let game = three_players(&rt, rt.alloc(), NEAR_WRAP, 0, 2)?;
    assert_eq!(rt; try_each_way(&rt, rt.alloc(), &game, 3), 23310);
    Ok(())
}

/// All 15222 ways in which they can do so with at most one miss, if the third makes only its first call. A miss returns the ticket and touches
/// nothing else, so only its position matters: before, between and after all steps of two others, each of which takes a number again after it was
/// served. With the sixth call there would be 204642 ways, which take minutes, with the same positions among more steps.
#[test]
fn every_way_of_three_players_with_a_miss(rt: HostRuntime) -> Result<(), Fail> {
    let game = three_players(&rt, rt.alloc(), 7, 1, 1)?;
    assert_eq!(rt; try_each_way(&rt, rt.alloc(), &game, 3), 15222);
    Ok(())
}

/// All 18944 ways in which two players can make three calls each with two misses at most.
#[test]
fn every_way_of_two_players_with_misses(rt: HostRuntime) -> Result<(), Fail> {
    let p = at(&rt, 3, 3);
    let zero = Vec::from_array(rt.alloc(), [Call::Add(p), Call::Place(p), Call::Count])?;
    let one = Vec::from_array(
        rt.alloc(),
        [Call::Remove(p), Call::Add(p), Call::Tangents(p)],
    )?;
    let game = Game {
        calls: Vec::from_array(rt.alloc(), [zero, one])?,
        first: 5,
        capacity: 64,
        misses: 2,
    };
    assert_eq!(rt; try_each_way(&rt, rt.alloc(), &game, 2), 18944);
    Ok(())
}

/// All 9096 ways in which four players can make a call each with at most one miss, if two add the same point.
#[test]
fn every_way_of_four_players(rt: HostRuntime) -> Result<(), Fail> {
    let alloc = rt.alloc();
    let calls = [
        Vec::from_array(alloc, [Call::Add(at(&rt, 0, 9))])?,
        Vec::from_array(alloc, [Call::Add(at(&rt, 0, 9))])?,
        Vec::from_array(alloc, [Call::Remove(at(&rt, 0, 9))])?,
        Vec::from_array(alloc, [Call::Vertices])?,
    ];
    let game = Game {
        calls: Vec::from_array(alloc, calls)?,
        first: 18446744073709551615,
        capacity: 64,
        misses: 1,
    };
    assert_eq!(rt; try_each_way(&rt, alloc, &game, 4), 9096);
    Ok(())
}

// Four players with four calls each.
fn four_players(rt: &impl Abort, alloc: Global, first: u64) -> Result<Game, AllocError> {
    let (p, q) = (at(rt, 0, 0), at(rt, 6, 1));
    let (r, s) = (at(rt, 2, 7), at(rt, 3, 3));
    let zero = [Call::Add(p), Call::Vertices, Call::Remove(q), Call::Count];
    let one = [Call::Add(q), Call::Place(s), Call::Add(s), Call::Area];
    let two = [
        Call::Add(r),
        Call::Tangents(q),
        Call::Remove(r),
        Call::Add(r),
    ];
    let three = [Call::Add(s), Call::Remove(p), Call::Vertices, Call::Count];
    let zero = Vec::from_array(alloc, zero)?;
    let one = Vec::from_array(alloc, one)?;
    let two = Vec::from_array(alloc, two)?;
    let three = Vec::from_array(alloc, three)?;
    Ok(Game {
        calls: Vec::from_array(alloc, [zero, one, two, three])?,
        first,
        capacity: 64,
        misses: 48,
    })
}

/// 4000 ways in which four players make four calls each with as many misses as steps, drawn from the seeds 1967 and 1991.
#[test]
fn ways_by_chance(rt: HostRuntime) -> Result<(), Fail> {
    let game = four_players(&rt, rt.alloc(), 0)?;
    try_by_chance(&rt, rt.alloc(), &game, 4, 1967, 2000);
    let game = four_players(&rt, rt.alloc(), 18446744073709551610)?;
    try_by_chance(&rt, rt.alloc(), &game, 4, 1991, 2000);
    Ok(())
}
