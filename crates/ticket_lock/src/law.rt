//! The laws of the lock, over every list of single steps.
ghost use Rattle.std.specs.Prelude.{ℕ};
ghost use Rattle.ticket_lock.specs.Schedule.{NeverStuck, SchedulesHold};
ghost use Rattle.ticket_lock.specs.Linearizable.{Linearizable};
ghost use Rattle.ticket_lock.specs.Forms.{first_form, partitioned_form};
ghost use Rattle.ticket_lock.specs.Standing.{RestingTablesAreGood};
ghost use Rattle.ticket_lock.specs.Boards.{TakesAreEvents, LooksAreEvents, HandOnsAreEvents, CutsComeBefore};
ghost use Rattle.ticket_lock.specs.Boards.{JoinsComeAfter, NobodyComesIn, EventsStayInside, NothingHappensOutside};
ghost use Rattle.ticket_lock.specs.Boards.{PeeksChangeNothing, WordZeroIsTurn};

use crate::chronicle::Chronicle;

/// The law of the lock in its form with two words: after every list of events from every opened world the world is good, and the k-th entry is by the
/// seat that made the k-th take.
pub fn schedules_hold<B: Chronicle>()
    ensures { SchedulesHold B.Chronicle first_form }
{}

/// The same law in the form with `next` and eight grant words, which `TicketLock` runs.
pub fn partitioned_schedules_hold<B: Chronicle>()
    ensures { SchedulesHold B.Chronicle partitioned_form }
{}

/// Linearizability (Herlihy and Wing, 1990) in the form that `TicketLock` runs. Every list of events from every opened world leaves a lawful journal
/// that begins with the lines at opening. Its new lines are those of the calls, each in its seat's name. If one seat's hand on comes before another
/// seat's take, the line of the first comes before the line of the second. A hand on that adds no line found the journal full. If the capacity is
/// part of the head, it comes after every line; if not, each line that comes after it was added to a book with a greater capacity.
pub fn partitioned_schedules_are_linearizable<B: Chronicle>()
    ensures { Linearizable B.Chronicle partitioned_form }
{}

/// The machine is never stuck in that form: after every list of events from every opened world, if some seat has a number, the seat that has the
/// number served holds the book or would enter at its next look. Nothing promises that any seat ever looks.
pub fn partitioned_schedules_are_never_stuck<B: Chronicle>()
    ensures { NeverStuck B.Chronicle partitioned_form }
{}

/// The rule of the lock's table, which holds between any two steps, implies that the table shows a good world.
pub fn resting_tables_are_good<B: Chronicle>()
    ensures { RestingTablesAreGood B.Chronicle partitioned_form }
{}

/// The steps of `TicketLock::take`, `TicketLock::look` and `Guard::hand_on` on the lock's table, if it satisfies its rule: each is one event, and no
/// other, from the world that the table shows before to one that it shows after. A take is the event take; a look is enter if its load found the
/// number, otherwise miss; a hand on is the event hand on.
pub fn steps_are_events<B: Chronicle>()
    ensures takes { TakesAreEvents B.Chronicle partitioned_form }
    ensures looks { LooksAreEvents B.Chronicle partitioned_form }
    ensures hand_ons { HandOnsAreEvents B.Chronicle partitioned_form }
{}

/// The other steps of seats on that table change no word, no number and no book, and happen outside the time in which the lock is open, that is, in
/// which no keeper has a seat: a keeper becomes a seat before that time, and a seat is joined to one after it. Every event of an open lock leaves it
/// open, and if one keeper has all seats nothing happens.
///
/// While the lock is open, `TicketLock::enter` also loads words without a seat, to estimate how far away its turn is: such a load is no event. It
/// leaves the table as it is, and no contract depends on what it found.
pub fn other_steps_are_outside<B: Chronicle>()
    ensures before { CutsComeBefore B.Chronicle partitioned_form }
    ensures after { JoinsComeAfter B.Chronicle partitioned_form }
    ensures nobody { NobodyComesIn B.Chronicle partitioned_form }
    ensures inside { EventsStayInside B.Chronicle partitioned_form }
    ensures outside { NothingHappensOutside B.Chronicle partitioned_form }
    ensures peeks { PeeksChangeNothing B.Chronicle partitioned_form }
{}

/// If no seat of a table under its rule has a number, the book is in its slot, and word 0, from which the next number is taken, is its turn.
pub fn resting_turn_is_next<B: Chronicle>()
    ensures { (n : ℕ) (opening : B) → WordZeroIsTurn B.Chronicle partitioned_form n opening }
{}
