//! Opening a lock around a book.
ghost use Rattle.std.specs.Prelude.{◌≡◌, ◌^◌, ◌<◌, ◌≤◌, ◌⊎◌, [], ◌∷◌, length, vec_len, vec_capacity, All, IfOk, IfErr};
ghost use Rattle.std.specs.Prelude.{IsErrAnd, map};
ghost use Rattle.ticket_lock.specs.Standing.{keeper_of, heads_of, seen_of, IsIdle};
ghost use Rattle.ticket_lock.specs.Beginnings.{Begins};
ghost use Rattle.ticket_lock.specs.Schedule.{idle_from};
ghost use Rattle.ticket_lock.specs.Forms.{partitioned_form};
ghost use Rattle.ticket_lock.specs.Tokens.{seat_count, opening_book, IsSeatOf, AreNumbered, seat_state, seat_seen};
ghost use Rattle.ticket_lock.specs.declared.open.OpenFault.TheVariants.{SeatCount, NoMemory};

use crate::chronicle::Chronicle;
use crate::lock::TicketLock;
use crate::plays::Cut;
use crate::rule::{Board, Origin, Place};
use crate::seat::Seat;
use crate::sleepers::Sleepers;
use atomic_table::{Refused, Table};
use std::alloc::Global;
use std::snapshot::Snapshot;

/// The maximal number of seats of a lock.
pub const SEAT_LIMIT: u8 = 64;

/// Why a lock was not opened.
#[derive(Drop, Debug, Clone, Copy, PartialEq, Eq)]
pub enum OpenFault {
    /// The number of seats was 0 or above 64.
    SeatCount,
    /// Memory was refused.
    NoMemory,
}

// Returns the only value of a list.
fn only<T>(mut all: Vec<T>) -> T
    requires { length all.items ≡ 1 }
    ensures { all.items ≡ result ∷ [] }
{
    let one = all.pop().unwrap();
    all.destroy_empty();
    one
}

// Makes a table with the book in its slot. If there is no memory, returns the book.
fn lay<B: Chronicle>(alloc: Global, book: B, seats: u8) -> Result<(Board<B>, Place<B>), B>
    requires lawful { B.lawful book }
    requires few { seats ≤ 64 }
    ensures sized { IfOk result
        (λ r. (r.0.shared.table_id.words ≡ 16) × (r.0.shared.table_id.slots ≡ 1) × (r.0.shared.key.seats ≡ seats)
        × (r.0.shared.key.book.value ≡ book)) }
    ensures keeper { IfOk result
        (λ r. (r.1.table_id ≡ r.0.shared.table_id) × (r.1.me ≡ (keeper_of (B.head book) (B.lines book) 0 seats, []))) }
    ensures first { IfOk result (λ _. B.turn book < 2 ^ 64) }
    ensures back { IfErr result (λ b. b ≡ book) }
{
    let turn = book.turn();
    let about = Origin {
        book: Snapshot::of(&book),
        seats: u64::from(seats),
    };
    let Ok(mut slots) = Vec::with_capacity(alloc, 1) else {
        return Err(book);
    };
    slots.push_reserved(Some(book));
    match Table::new(alloc, &[turn; 16], slots, &about) {
        Ok(made) => Ok(made),
        Err(Refused { slots }) => Err(only(slots).unwrap()),
    }
}

// Cuts the seats off their keeper, one after the other: the keeper becomes a seat, and a new keeper has the others. So the index of each seat among
// the table's views is its number. Returns the last keeper, which has no seat.
fn cut<B: Chronicle>(
    board: &Board<B>,
    keeper: Place<B>,
    all: &mut Vec<Seat<B>>,
    seats: u8,
) -> Place<B>
    requires table { (keeper.table_id ≡ board.now.shared.table_id) × (0 < board.now.shared.table_id.words)
        × (board.now.shared.key.seats ≡ seats) }
    requires keeper { keeper.me
        ≡ (keeper_of (B.head board.now.shared.key.book.value) (B.lines board.now.shared.key.book.value) 0 seats, []) }
    requires space { (all.old.items ≡ []) × (seats ≤ vec_capacity all.old) }
    ensures keeper { (result.table_id ≡ board.now.shared.table_id)
        × (result.me ≡ (
          keeper_of (B.head board.now.shared.key.book.value)
              (B.lines board.now.shared.key.book.value) seats 0,
          [],
        )) }
    ensures own { All (λ s. (s.place.table_id ≡ board.now.shared.table_id)
        × (heads_of s.place.me.0 ≡ B.head board.now.shared.key.book.value ∷ []) × IsIdle s.number s.place.me)
        all.new.items }
    ensures seen { All (λ s. seen_of s.place.me.0 ≡ B.lines board.now.shared.key.book.value) all.new.items }
    ensures views { map (λ s. s.place.me.0) all.new.items
        ≡ idle_from (B.head board.now.shared.key.book.value) (B.lines board.now.shared.key.book.value) 0 seats }
    ensures numbers { AreNumbered all.new.items }
    ensures space { (vec_len all.new ≡ seats) × (seats ≤ vec_capacity all.new) }
{
    let mut keeper = keeper;
    for number in 0..seats {
        let mut place = keeper;
        keeper = board.shared.split_seat::<Cut>(&mut place);
        all.push_reserved(Seat { place, number });
    }
    keeper
}

impl<B: Chronicle> TicketLock<B> {
    /// Opens a lock around a lawful book, and returns it with its seats, numbered from 0. There can be 1 to 64 seats. Each seat has seen the book's
    /// journal, and the first number handed out is the book's turn. The memory for all later calls is allocated here.
    ///
    /// The lock begins with a table under its rule, whose views are the seats returned and a keeper that has none. From the world that this table
    /// shows, every list of events leads to a good world, in which the k-th entry is by the seat that made the k-th take, and to a journal that is a
    /// sequential history of the calls.
    ///
    /// Fails with `SeatCount` if `seats` is 0 or above 64, or else with `NoMemory`; it returns the book unchanged.
    ///
    /// The book is moved at each entry and each hand-over, so pass a large one as a `Box`, which is a `Chronicle` too.
    pub fn open(
        alloc: Global,
        book: B,
        seats: u8,
    ) -> Result<(TicketLock<B>, Vec<Seat<B>>), (OpenFault, B)>
        requires lawful { B.lawful book }
        ensures range { IfOk result (λ _. (1 ≤ seats) × (seats ≤ 64)) }
        ensures lock { IfOk result (λ r. (seat_count r.0 ≡ seats) × (opening_book r.0 ≡ book)) }
        ensures seats { IfOk result (λ r. (vec_len r.1 ≡ seats) × (seats ≤ vec_capacity r.1)) }
        ensures own { IfOk result (λ r. All (IsSeatOf B.head r.0) r.1.items) }
        ensures numbers { IfOk result (λ r. AreNumbered r.1.items) }
        ensures seen { IfOk result (λ r. All (λ s. seat_seen s ≡ B.lines book) r.1.items) }
        ensures begins { IfOk result
            (λ r. Begins B.Chronicle partitioned_form seats book (map (λ s. seat_state s) r.1.items)) }
        ensures seat_count { (seats ≡ 0) ⊎ (64 < seats) → IsErrAnd result (λ e. e.0 ≡ SeatCount) }
        ensures no_memory { IfErr result (λ e. 1 ≤ seats → seats ≤ 64 → e.0 ≡ NoMemory) }
        ensures back { IfErr result (λ e. e.1 ≡ book) }
    {
        if seats == 0 || seats > SEAT_LIMIT {
            return Err((OpenFault::SeatCount, book));
        }
        let Ok(mut all) = Vec::with_capacity(alloc, usize::from(seats)) else {
            return Err((OpenFault::NoMemory, book));
        };
        let (board, keeper) = match lay(alloc, book, seats) {
            Ok(made) => made,
            Err(book) => {
                all.destroy_empty();
                return Err((OpenFault::NoMemory, book));
            }
        };
        drop(cut(&board, keeper, &mut all, seats));
        let sleepers = Sleepers::new(seats);
        let lock = TicketLock {
            board,
            seats,
            sleepers,
        };
        Ok((lock, all))
    }
}
