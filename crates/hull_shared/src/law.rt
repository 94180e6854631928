//! The laws of the lock, for a shared hull, over every list of single steps of its seats.
ghost use Rattle.hull_headline.specs.Headline.{Always, AtMostOneHolds, FirstComeFirstServed, HasLegalJournal};
ghost use Rattle.hull_headline.specs.Headline.{HoldsEachPointAsOften, IsInOrderOfNumbers, LedgersSumToLength};
ghost use Rattle.hull_headline.specs.Headline.{SegmentsAndHeldAreTheJournal, StoresThatOfLivePoints};
ghost use Rattle.hull_headline.specs.Headline.{TicketsCountTheCalls, WheneverFree};
ghost use Rattle.bucket_tree.specs.Sets.{bucket_set};
ghost use Rattle.hull_shared.specs.JournalSnapshots.{SnapshotsAreOfTheJournal};
ghost use Rattle.hull_shared.specs.Locks.{StoresBridgesOf, shared_hull};
ghost use Rattle.hull_shared.specs.Responses.{AnswersAtSharedHullsAreOfLines};

use crate::book::SharedHullBook;
use hull_book::segments_are_the_journal;
use ticket_lock::{partitioned_schedules_are_linearizable, partitioned_schedules_hold};

/// The headline (`hull_headline`) of the lock of a shared hull and its book, a clause for each of its sentences.
pub fn headline_holds_of_shared_hulls()
    ensures first_come { FirstComeFirstServed shared_hull }
    ensures one_holder { Always shared_hull AtMostOneHolds }
    ensures bridges { WheneverFree shared_hull (StoresThatOfLivePoints StoresBridgesOf) }
    ensures multiplicities { WheneverFree shared_hull (HoldsEachPointAsOften bucket_set) }
    ensures legal { WheneverFree shared_hull HasLegalJournal }
    ensures in_order { WheneverFree shared_hull IsInOrderOfNumbers }
    ensures tickets { TicketsCountTheCalls shared_hull }
    ensures ledgers { WheneverFree shared_hull LedgersSumToLength }
    ensures segments { SegmentsAndHeldAreTheJournal shared_hull }
{
    partitioned_schedules_hold::<Box<SharedHullBook>>();
    segments_are_the_journal();
}

/// Linearizability (Herlihy and Wing, 1990) of the calls that seats make on a shared hull. After every list of single
/// steps, in which each seat that held the book had a call served, the whole journal is a legal history that contains
/// each call in its seat's name with the reply that it was answered with, in an order that keeps the order of calls
/// that do not overlap. A call without a line found the book full, and was answered so; or it was a question, and its
/// answer is allowed at the points that the lines before it had left.
pub fn answers_at_shared_hulls_are_of_lines()
    ensures { AnswersAtSharedHullsAreOfLines }
{
    partitioned_schedules_are_linearizable::<Box<SharedHullBook>>();
}

/// If the changes of a snapshot are a prefix of those of a journal, its vertices are those that a replay of as many
/// lines leaves. For a shared hull's readers they are a prefix: the publisher of its book has recorded the changes of
/// the journal's lines and no others, which is an invariant of the type of such books, and of two prefixes of its
/// history one is a prefix of the other.
pub fn snapshots_are_of_the_journal()
    ensures { SnapshotsAreOfTheJournal }
{}
