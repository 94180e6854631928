//! A roll that each seat signs when it is served: an example to copy.
ghost use Rattle.std.specs.Prelude.{◌≡◌, ◌+◌, ◌≤◌, ◌<◌, [], ◌∷◌, ◌++◌, length, vec_capacity, IfOk};
ghost use Rattle.ticket_lock.specs.Tokens.{opening_book, IsSeatOf, seat_number, seat_seen, guard_lock, guard_seat};
ghost use Rattle.ticket_lock.specs.Tokens.{guard_number, guard_seen, guard_book, KeepsHead};

use crate::chronicle::Chronicle;
use crate::guard::Guard;
use crate::seat::Seat;
use std::alloc::{AllocError, Global};

/// A line of a roll: which seat signed, and the number that was served.
#[derive(Clone, Copy)]
pub struct Signature {
    pub seat: u8,
    pub number: u64,
}

/// A roll with storage for `capacity` lines. It is lawful if that storage is allocated.
#[derive(Drop)]
pub struct Roll {
    pub lines: Vec<Signature>,
    pub capacity: usize,
    pub turn: u64,
}

impl Chronicle for Roll {
    type Head = usize;

    type Line = Signature;

    ghost head = { λ r. r.capacity };

    ghost lines = { λ r. r.lines.items };

    ghost capacity = { λ r. r.capacity };

    ghost turn = { λ r. r.turn };

    ghost lawful = { λ r. r.capacity ≤ vec_capacity r.lines };

    ghost line_seat = { λ l. l.seat };

    ghost line_number = { λ l. l.number };

    fn turn(&self) -> u64 {
        self.turn
    }

    fn full(&self) -> bool {
        self.capacity <= self.lines.len()
    }
}

impl Roll {
    /// Returns an empty roll whose first line will have the number `turn`. Fails if memory is refused.
    pub fn blank(alloc: Global, capacity: usize, turn: u64) -> Result<Roll, AllocError>
        ensures lawful { IfOk result (λ r. capacity ≤ vec_capacity r.lines) }
        ensures empty { IfOk result (λ r. (r.lines.items ≡ []) × (r.capacity ≡ capacity) × (r.turn ≡ turn)) }
    {
        Ok(Roll {
            lines: Vec::with_capacity(alloc, capacity)?,
            capacity,
            turn,
        })
    }
}

/// Signs the roll in the name of the seat that holds it, unless the roll is full, and hands it on. The guard must be as it was found at entry.
pub fn sign(guard: Guard<Roll>, seat: u8) -> Seat<Roll>
    requires seat { guard_seat guard ≡ seat }
    requires lawful { (guard_book guard).capacity ≤ vec_capacity (guard_book guard).lines }
    requires head { KeepsHead ⟦<Roll as Chronicle>⟧.head guard
        × ((guard_book guard).capacity ≡ (opening_book (guard_lock guard)).capacity) }
    requires turn { (guard_book guard).turn ≡ guard_number guard }
    requires seen { guard_seen guard ≡ (guard_book guard).lines.items }
    ensures own { IsSeatOf ⟦<Roll as Chronicle>⟧.head (guard_lock guard.entry) result × (seat_number result ≡ seat) }
    ensures signed { length (guard_seen guard.entry) < (guard_book guard.entry).capacity
        → seat_seen result ≡ guard_seen guard.entry ++ record { seat = seat; number = guard_number guard.entry } ∷ [] }
    ensures full { (guard_book guard.entry).capacity ≤ length (guard_seen guard.entry)
        → seat_seen result ≡ guard_seen guard.entry }
{
    let mut guard = guard;
    let roll = guard.book();
    if !roll.full() {
        roll.lines.push_reserved(Signature {
            seat,
            number: roll.turn,
        });
    }
    roll.turn = roll.turn.wrapping_add(1);
    guard.hand_on()
}
