//! The conditions on every schedule.
use super::schedule::{Game, Outcome, Seen};
use hull_book::{Answer, CheckResult, Journal, Line, check};
use std::alloc::Global;
use std::process::Abort;

// The player's lines are its calls in their order, and its answers are their replies.
fn has_its_lines(rt: &impl Abort, game: &Game, journal: &Journal, player: u8, answers: &[Answer]) {
    let Some(calls) = game.calls.get(usize::from(player)) else {
        panic!(rt; "each player has a list of calls")
    };
    let mut made = 0usize;
    for line in journal.lines() {
        if line.seat == player {
            assert!(rt; calls.get(made) == Some(&line.call));
            match answers.get(made) {
                Some(Ok(reply)) => assert_eq!(rt; *reply, line.reply),
                _ => panic!(rt; "each line was answered"),
            }
            made = made.saturating_add(1);
        }
    }
    assert_eq!(rt; (made, answers.len()), (calls.len(), calls.len()));
}

// How many calls the players have.
fn count_calls(game: &Game) -> usize {
    let mut calls = 0usize;
    for own in &game.calls {
        calls = calls.saturating_add(own.len());
    }
    calls
}

// Entries are in the order of takes, and the lines in that order, numbered from the first on.
fn is_in_order(rt: &impl Abort, game: &Game, seen: &Seen, lines: &[Line]) {
    assert_eq!(rt; seen.enterers.as_slice(), seen.takers.as_slice());
    let calls = count_calls(game);
    assert_eq!(rt;
        (lines.len(), seen.takers.len(), seen.handed),
        (calls, calls, calls)
    );
    for (k, line) in lines.iter().enumerate() {
        assert_eq!(rt; line.number, game.first.wrapping_add(k as u64));
        assert!(rt; seen.takers.get(k) == Some(&line.seat));
    }
}

// All conditions except that the journal is legal: entries in the order of takes, a line for each call in that order, numbered from the first on,
// each player's answers in its lines, and ledgers that sum to the journal's length.
fn judge_schedule(rt: &impl Abort, game: &Game, workers: u8, end: &Outcome) {
    is_in_order(rt, game, &end.seen, end.journal.lines());
    assert_eq!(rt; end.sum, count_calls(game) as u64);
    assert_eq!(rt; end.answers.len(), usize::from(workers));
    for (player, answers) in &end.answers {
        has_its_lines(rt, game, &end.journal, *player, answers.as_slice());
    }
}

/// All conditions on the schedule, with a legal journal.
pub(super) fn judge(rt: &impl Abort, alloc: Global, game: &Game, workers: u8, end: &Outcome) {
    judge_schedule(rt, game, workers, end);
    assert_eq!(rt; check(alloc, &end.journal), CheckResult::Legal);
}

// Whether the lines are by the same seats, in the same order.
fn have_one_order(lines: &[Line], others: &[Line]) -> bool {
    for (line, other) in lines.iter().zip(others) {
        if line.seat != other.seat {
            return false;
        }
    }
    lines.len() == others.len()
}

// Whether the lines, of which there are equally many, are the same.
fn are_the_same(lines: &[Line], others: &[Line]) -> bool {
    for (line, other) in lines.iter().zip(others) {
        if line.number != other.number || line.call != other.call || line.reply != other.reply {
            return false;
        }
    }
    true
}

// Returns the index of the journal that has its lines by the same seats, in the same order; `None` if there is none.
fn place_of(known: &[Journal], lines: &[Line]) -> Option<usize> {
    for (place, journal) in known.iter().enumerate() {
        if have_one_order(journal.lines(), lines) {
            return Some(place);
        }
    }
    None
}

/// The same for one schedule of many of a game. The order of the seats determines the journal, since each call has one reply: so the first in an
/// order is checked, and joins those that are known, and each later one must be that one.
pub(super) fn judge_next(
    rt: &impl Abort,
    alloc: Global,
    game: &Game,
    workers: u8,
    end: Outcome,
    known: &mut Vec<Journal>,
) {
    judge_schedule(rt, game, workers, &end);
    let journal = end.journal;
    match place_of(known.as_slice(), journal.lines()) {
        Some(place) => {
            assert!(rt; place < known.len());
            let same = are_the_same(known[place].lines(), journal.lines());
            known.swap(0, place); // most schedules are in the order of the one before
            assert!(rt; same);
        }
        None => {
            let found = check(alloc, &journal);
            let kept = known.push(journal).is_ok();
            assert_eq!(rt; (found, kept), (CheckResult::Legal, true));
        }
    }
}
