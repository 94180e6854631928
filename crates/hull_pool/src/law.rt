//! The consequences of the lock's law, over every list of steps, for calls and replies.
ghost use Rattle.hull_book.specs.Kinds.{drained};
ghost use Rattle.hull_pool.specs.Responses.{AnswersAreOfLines, LongAnswersAreOfLines};

use hull_book::{Book, LongBook};
use hull_set::HullSet;
use ticket_lock::{partitioned_schedules_are_linearizable, partitioned_schedules_hold};

/// Linearizability (Herlihy and Wing, 1990) of the calls that seats make on a shared book: after every list of single steps, in which each seat that
/// held the book served a call (`serve_and_hand_on`), the journal is a legal history in which each call is in its seat's name with the reply that it
/// got, in an order that keeps the order of calls that do not overlap; and a call whose result was that the journal is full comes after every line.
pub fn answers_are_of_lines<S: HullSet + Drop>()
    ensures { AnswersAreOfLines S.HullSet }
{
    partitioned_schedules_hold::<Box<Book<S>>>();
    partitioned_schedules_are_linearizable::<Box<Book<S>>>();
}

/// The same for calls on a shared book that may be drained, as [`serve_and_hand_on`](crate::serve_and_hand_on) serves one: the journal is the whole
/// of it, the segments taken out, in order, and then the lines that the book has; and a line that comes after a call whose result was that the
/// journal is full was added to a book with more space.
pub fn long_answers_are_of_lines<S: HullSet + Drop>()
    ensures { LongAnswersAreOfLines (drained S.HullSet) (λ head. head) }
{
    partitioned_schedules_are_linearizable::<Box<LongBook<S>>>();
}
