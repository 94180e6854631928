//! Schedules that are written out, with the value of every step.
use super::at;
use super::choice::{Chance, Listed};
use super::judge::judge;
use super::player::Step;
use super::schedule::{Game, play_once};
use hull_book::{Call, JournalFull, Reply};
use std::alloc::{AllocError, Global};
use std::process::Abort;
use std::test::Fail;

// Two players with a call each.
fn two_players(rt: &impl Abort, alloc: Global, first: u64) -> Result<Game, AllocError> {
    let zero = Vec::from_array(alloc, [Call::Add(at(rt, 5, 5))])?;
    let one = Vec::from_array(alloc, [Call::Count])?;
    Ok(Game {
        calls: Vec::from_array(alloc, [zero, one])?,
        first,
        capacity: 8,
        misses: 2,
    })
}

// Player 0 takes a number, and then player 1; player 1 misses, player 0 enters, player 1 misses again, player 0 hands
// on, player 1 enters and hands on. The players that can make a step are counted from the last on.
fn two_in_turn(rt: &impl Abort, alloc: Global, first: u64, second: u64) -> Result<(), AllocError> {
    let game = two_players(rt, alloc, first)?;
    let mut listed = Listed::new(Vec::from_array(alloc, [1, 0, 0, 1, 0, 0, 0, 0])?);
    let end = play_once(rt, alloc, &game, 2, &mut listed);
    let steps = [
        (0, Step::Took(first)),
        (1, Step::Took(second)),
        (1, Step::Missed),
        (0, Step::Entered(first, None)),
        (1, Step::Missed),
        (0, Step::HandedOn),
        (1, Step::Entered(second, Some((first, 0)))),
        (1, Step::HandedOn),
    ];
    assert_eq!(rt; end.seen.steps.as_slice(), steps.as_slice());
    judge(rt, alloc, &game, 2, &end);
    Ok(())
}

/// Two seats over a book whose turn is 5: the second finds the first's line, with number 5, by seat 0.
#[test]
fn two_seats(rt: HostRuntime) -> Result<(), Fail> {
    Ok(two_in_turn(&rt, rt.alloc(), 5, 6)?)
}

/// The same across the wrap: at the second entry the book's turn is 0.
#[test]
fn two_seats_across_the_wrap(rt: HostRuntime) -> Result<(), Fail> {
    Ok(two_in_turn(&rt, rt.alloc(), 18446744073709551615, 0)?)
}

/// A book of capacity 1 that is full: the second seat enters and gets that answer, its hand on is accepted, and the next number enters. A hundred
/// times.
#[test]
fn a_full_book_hands_on(rt: HostRuntime) -> Result<(), Fail> {
    for _ in 0..100 {
        full_book(&rt, rt.alloc())?;
    }
    Ok(())
}

// Does so once.
fn full_book(rt: &impl Abort, alloc: Global) -> Result<(), AllocError> {
    let zero = Vec::from_array(alloc, [Call::Count, Call::Count])?;
    let one = Vec::from_array(alloc, [Call::Count])?;
    let game = Game {
        calls: Vec::from_array(alloc, [zero, one])?,
        first: 7,
        capacity: 1,
        misses: 0,
    };
    let mut listed = Listed::new(Vec::from_array(alloc, [1, 0, 0, 0, 1, 0, 0, 0, 0])?);
    let end = play_once(rt, alloc, &game, 2, &mut listed);
    let steps = [
        (0, Step::Took(7)),
        (1, Step::Took(8)),
        (0, Step::Entered(7, None)),
        (0, Step::HandedOn),
        (0, Step::Took(9)),
        (1, Step::Entered(8, Some((7, 0)))),
        (1, Step::HandedOn),
        (0, Step::Entered(9, Some((7, 0)))),
        (0, Step::HandedOn),
    ];
    assert_eq!(rt; end.seen.steps.as_slice(), steps.as_slice());
    assert_eq!(rt; (end.sum, end.journal.lines().len()), (1, 1));
    for (player, answers) in &end.answers {
        if *player == 0 {
            assert_eq!(rt; answers.len(), 2);
            assert!(rt; answers[0] == Ok(Reply::PointCount(0)) && answers[1] == Err(JournalFull));
        } else {
            assert_eq!(rt; answers.len(), 1);
            assert!(rt; answers[0] == Err(JournalFull));
        }
    }
    Ok(())
}

// 64 players that count once each, with as many misses as steps.
fn sixty_four_players(alloc: Global) -> Result<Game, AllocError> {
    let mut calls = Vec::new(alloc);
    for _ in 0..64u8 {
        calls.push(Vec::from_array(alloc, [Call::Count])?)?;
    }
    Ok(Game {
        calls,
        first: 18446744073709551600,
        capacity: 64,
        misses: 192,
    })
}

/// A lock with 64 seats serves each of 64 numbers in order, a hundred times with random choices, across the wrap.
#[test]
fn sixty_four_seats_are_served(rt: HostRuntime) -> Result<(), Fail> {
    let game = sixty_four_players(rt.alloc())?;
    let mut chance = Chance::new(1965);
    for _ in 0..100u8 {
        let end = play_once(&rt, rt.alloc(), &game, 64, &mut chance);
        judge(&rt, rt.alloc(), &game, 64, &end);
    }
    Ok(())
}
