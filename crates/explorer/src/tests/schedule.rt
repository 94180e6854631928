//! One schedule, from the opening of the lock to its end, and its result.
ghost use Rattle.std.specs.Prelude.{◌≡◌, ◌+◌, ◌≤◌, ◌<◌, [], All, box_value, length, vec_len, vec_capacity};
ghost use Rattle.std.specs.List.{AllZip};
ghost use Rattle.ticket_lock.specs.Tokens.{seat_count, opening_book, IsSeatOf, AreNumbered, seat_number, seat_seen};
ghost use Rattle.hull_book.specs.Books.{IsLawful};
ghost use Rattle.hull_book.specs.Ledgers.{AreLedgers, IsLedgerOf};
ghost use Rattle.hull_pool.specs.Crews.{book_head};
ghost use Rattle.hull_pool.specs.Work.{workers_of};
ghost use Rattle.explorer.specs.Places.{IsPlaced};

use super::choice::Choice;
use super::player::{Player, Step, make_step};
use hull_book::{Answer, Book, Call, Journal, Ledger};
use hull_pool::{BookLock, BookSeat, close_book};
use hull_set::HullSet;
use hull_tree::HullTree;
use std::alloc::Global;
use std::process::Abort;
use ticket_lock::TicketLock;

/// How many steps a schedule has at most.
const STEPS: u32 = 4096;

/// The game: the calls of each player, the first number, the journal's capacity, and how often looks may miss.
#[derive(Drop)]
pub(super) struct Game {
    pub(super) calls: Vec<Vec<Call>>,
    pub(super) first: u64,
    pub(super) capacity: u32,
    pub(super) misses: u32,
}

/// The observations of a schedule.
#[derive(Drop)]
pub(super) struct Seen {
    pub(super) takers: Vec<u8>,
    pub(super) enterers: Vec<u8>,
    pub(super) handed: usize,
    pub(super) misses: u32,
    pub(super) steps: Vec<(u8, Step)>,
}

impl Seen {
    /// Makes the empty observations.
    fn new(alloc: Global) -> Seen {
        Seen {
            takers: Vec::new(alloc),
            enterers: Vec::new(alloc),
            handed: 0,
            misses: 0,
            steps: Vec::new(alloc),
        }
    }
}

/// The result: each player's answers, the last player's first, the sum of the ledgers, and the journal.
#[derive(Drop)]
pub(super) struct Outcome {
    pub(super) seen: Seen,
    pub(super) answers: Vec<(u8, Vec<Answer>)>,
    pub(super) sum: u64,
    pub(super) journal: Journal,
}

// Whether the player's number is served.
fn is_served(player: &Player, seen: &Seen) -> bool {
    player.place == seen.handed
}

// The player's next call, if there is one.
fn next_call(player: &Player, game: &Game) -> Option<Call> {
    let own = game.calls.get(usize::from(player.number))?;
    own.get(player.answers.len()).copied()
}

// Whether the player has a call left.
fn has_call(player: &Player, game: &Game) -> bool {
    match game.calls.get(usize::from(player.number)) {
        Some(own) => player.answers.len() < own.len(),
        None => false,
    }
}

// Whether the player can make a step: it holds the book, its number is served, its look may miss, or it has a call
// left.
fn can_step(player: &Player, game: &Game, seen: &Seen) -> bool {
    if player.guard.is_some() {
        return true;
    }
    if player.ticket.is_some() {
        return is_served(player, seen) || seen.misses < game.misses;
    }
    has_call(player, game)
}

// Returns the players that can make a step, each by the bit of its index: a lock has at most 64 seats.
fn able_players(players: &[Player], game: &Game, seen: &Seen) -> u64 {
    let mut able = 0u64;
    let mut bit = 1u64;
    for player in players {
        if can_step(player, game, seen) {
            able |= bit;
        }
        bit = bit << 1;
    }
    able
}

// Returns the index of the set bit that has this many set bits before it.
fn nth_bit(bits: u64, before: u8) -> Option<usize> {
    let mut left = bits;
    for _ in 0..before {
        left &= left.wrapping_sub(1);
    }
    if left == 0 {
        None
    } else {
        Some(left.trailing_zeros() as usize)
    }
}

// Notes a number after those that were noted.
fn note(rt: &impl Abort, numbers: &mut Vec<u8>, number: u8) {
    let Ok(()) = numbers.push(number) else {
        panic!(rt; "there is memory for the notes")
    };
}

// Makes the player's next step, and tests that it is the expected one.
fn expected_step<'a>(
    rt: &impl Abort,
    lock: &'a BookLock<HullTree>,
    player: &mut Player<'a>,
    game: &Game,
    seen: &mut Seen,
)
    requires { IsPlaced lock.now player.old.number player.old.ledger
        ⟦<HullTree as HullSet>⟧ player.old.seat player.old.ticket player.old.guard }
    ensures { IsPlaced lock.now player.new.number player.new.ledger
        ⟦<HullTree as HullSet>⟧ player.new.seat player.new.ticket player.new.guard }
{
    let Some(call) = next_call(player, game) else {
        panic!(rt; "a player that makes a step has a call")
    };
    let served = is_served(player, seen);
    let number = player.number;
    let step = make_step(rt, lock, player, call);
    let Ok(()) = seen.steps.push((number, step)) else {
        panic!(rt; "there is memory for the notes")
    };
    match step {
        Step::Took(taken) => {
            let taken_before = seen.takers.len();
            assert_eq!(rt; taken, game.first.wrapping_add(taken_before as u64));
            player.place = taken_before;
            note(rt, &mut seen.takers, number);
        }
        Step::Missed => {
            assert!(rt; !served);
            seen.misses = seen.misses.saturating_add(1);
        }
        Step::Entered(_turn, _last) => {
            assert!(rt; served);
            note(rt, &mut seen.enterers, number);
        }
        Step::HandedOn => seen.handed = seen.handed.saturating_add(1),
    }
}

// The players make steps until none can.
fn play<'a, C: Choice>(
    rt: &impl Abort,
    lock: &'a BookLock<HullTree>,
    players: &mut Vec<Player<'a>>,
    game: &Game,
    choice: &mut C,
    seen: &mut Seen,
)
    requires { All (λ p. IsPlaced lock.now p.number p.ledger ⟦<HullTree as HullSet>⟧ p.seat p.ticket p.guard)
        players.old.items }
    ensures placed { All
        (λ p. IsPlaced lock.now p.number p.ledger ⟦<HullTree as HullSet>⟧ p.seat p.ticket p.guard) players.new.items }
    ensures many { vec_len players.new ≡ vec_len players.old }
{
    for _step in 0..STEPS {
        let able = able_players(players.as_slice(), game, seen);
        if able == 0 {
            return;
        }
        let chosen = choice.next(able.count_ones() as u8);
        let Some(place) = nth_bit(able, chosen) else {
            panic!(rt; "the choice is among those that can make a step")
        };
        assert!(rt; place < players.len());
        expected_step(rt, lock, &mut players[place], game, seen);
    }
}

// Makes a player with each seat and its ledger, the last seat's player first.
fn assemble(
    rt: &impl Abort,
    alloc: Global,
    lock: &BookLock<HullTree>,
    seats: &mut Vec<BookSeat<HullTree>>,
    ledgers: &mut Vec<Ledger>,
    players: &mut Vec<Player>,
)
    requires seats { All (λ s. IsSeatOf book_head lock.now s × (seat_seen s ≡ [])) seats.old.items }
    requires room { (players.old.items ≡ []) × (vec_len seats.old ≤ vec_capacity players.old) }
    requires few { (workers_of (box_value (opening_book lock.now)) ≡ vec_len seats.old)
        × (vec_len ledgers.old ≡ vec_len seats.old) }
    ensures seats { (seats.new.items ≡ []) × (vec_capacity seats.new ≡ vec_capacity seats.old) }
    ensures ledgers { (ledgers.new.items ≡ []) × (vec_capacity ledgers.new ≡ vec_capacity ledgers.old) }
    ensures placed { All
        (λ p. IsPlaced lock.now p.number p.ledger ⟦<HullTree as HullSet>⟧ p.seat p.ticket p.guard) players.new.items }
    ensures many { vec_len players.new ≡ vec_len seats.old }
{
    let workers = seats.len();
    while let Some(seat) = seats.pop() {
        let Some(ledger) = ledgers.pop() else {
            panic!(rt; "there is a ledger for each seat")
        };
        let number = seat.number();
        assert!(rt; ledger.seat() == number && ledger.total() == 0);
        assert!(rt; usize::from(number) < workers);
        players.push_reserved(Player {
            number,
            seat: Some(seat),
            ticket: None,
            guard: None,
            ledger,
            answers: Vec::new(alloc),
            place: 0,
        });
    }
}

// Separates the players, the last first, into their seats, their ledgers and their answers.
fn disband(
    rt: &impl Abort,
    lock: &BookLock<HullTree>,
    players: &mut Vec<Player>,
    seats: &mut Vec<BookSeat<HullTree>>,
    ledgers: &mut Vec<Ledger>,
    answers: &mut Vec<(u8, Vec<Answer>)>,
)
    requires placed { All
        (λ p. IsPlaced lock.now p.number p.ledger ⟦<HullTree as HullSet>⟧ p.seat p.ticket p.guard) players.old.items }
    requires empty { (seats.old.items ≡ []) × (ledgers.old.items ≡ []) }
    requires room { (vec_len players.old ≤ vec_capacity seats.old) × (vec_len players.old ≤ vec_capacity ledgers.old) }
    ensures players { players.new.items ≡ [] }
    ensures own { All (IsSeatOf book_head lock.now) seats.new.items }
    ensures numbered { AreNumbered seats.new.items }
    ensures ledgers { AllZip (λ s l. IsLedgerOf (seat_number s) (seat_seen s) l) seats.new.items ledgers.new.items }
    ensures many { vec_len seats.new ≡ vec_len players.old }
{
    while let Some(player) = players.pop() {
        let Player {
            number,
            seat,
            ticket,
            guard,
            ledger,
            answers: given,
            place: _,
        } = player;
        let None = ticket else {
            panic!(rt; "each call was made to its end")
        };
        let None = guard else {
            panic!(rt; "each call was made to its end")
        };
        let Some(seat) = seat else {
            panic!(rt; "each player sits again")
        };
        assert!(rt; usize::from(seat.number()) == seats.len());
        seats.push_reserved(seat);
        ledgers.push_reserved(ledger);
        let Ok(()) = answers.push((number, given)) else {
            panic!(rt; "there is memory for the answers")
        };
    }
}

// Opens a book of the leaf tree for this many players, on the heap, with its ledgers.
fn opened(
    rt: &impl Abort,
    alloc: Global,
    game: &Game,
    workers: u8,
) -> (Box<Book<HullTree>>, Vec<Ledger>)
    requires { (1 ≤ workers) × (workers ≤ 64) }
    ensures lawful { IsLawful ⟦<HullTree as HullSet>⟧ (box_value result.0) }
    ensures ledgers { AreLedgers (box_value result.0) result.1.items }
    ensures workers { workers_of (box_value result.0) ≡ workers }
    ensures empty { (box_value result.0).lines ≡ [] }
{
    let set = HullTree::new(alloc, 16);
    let Ok((book, ledgers)) = Book::open(alloc, set, game.first, game.capacity, workers) else {
        panic!(rt; "there is memory for the book")
    };
    let Ok(book) = Box::new(alloc, book) else {
        panic!(rt; "there is memory for the book")
    };
    (book, ledgers)
}

/// Plays the game once, with these choices, over a book of the leaf tree.
pub(super) fn play_once<C: Choice>(
    rt: &impl Abort,
    alloc: Global,
    game: &Game,
    workers: u8,
    choice: &mut C,
) -> Outcome
    requires { (1 ≤ workers) × (workers ≤ 64) }
{
    let (book, mut ledgers) = opened(rt, alloc, game, workers);
    let Ok((lock, mut seats)) = TicketLock::open(alloc, book, workers) else {
        panic!(rt; "there is memory for the lock")
    };
    let Ok(mut players) = Vec::with_capacity(alloc, usize::from(workers)) else {
        panic!(rt; "there is memory for the players")
    };
    let mut seen = Seen::new(alloc);
    let mut answers = Vec::new(alloc);
    assemble(rt, alloc, &lock, &mut seats, &mut ledgers, &mut players);
    play(rt, &lock, &mut players, game, choice, &mut seen);
    disband(
        rt,
        &lock,
        &mut players,
        &mut seats,
        &mut ledgers,
        &mut answers,
    );
    players.destroy_empty();
    let (book, sum) = close_book(lock, seats, ledgers);
    Outcome {
        seen,
        answers,
        sum,
        journal: book.into_journal(),
    }
}
