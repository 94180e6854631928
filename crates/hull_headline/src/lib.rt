//! The headline: what a hull that many threads share promises, as one contract.
//!
//! > In whatever order the threads' single steps fall, at most one thread holds the book. Whenever the lock is free,
//! > every stored bridge is that of the live points below it, and the journal is a legal history from the empty set,
//! > its calls in the order of their numbers: first come, first served. Once all ledgers are gathered, they sum to the
//! > journal's length.
//!
//! Besides, whenever the lock is free the multiplicity of each point is the one that the journal's calls left. The headline is proved for the lock
//! that runs, `TicketLock<Box<Book<HullTree>>>` (crates `ticket_lock`, `hull_book` and `hull_tree`), and for every list of single steps of its seats;
//! `specs/Headline.antt` defines each of its words. It is proved once for books over any set (`headline_holds_of_books_over`), and stated for each
//! book that runs: over a tree that searches each bridge, and over buckets. For a book that may be drained it is proved once more, and also that the
//! segments that were taken out, in their order, and then the lines that the book still has are its journal; and that its lines' own numbers go up
//! one by one, whichever calls found no space, and their tickets in the order of the calls.
#![tactic(auto)]

ghost use Rattle.hull_headline.specs.Headline.{Always, WheneverFree, AtMostOneHolds, StoresBridgesOfLivePoints};
ghost use Rattle.hull_headline.specs.Headline.{HoldsEachPointAsOften, HasLegalJournal, IsInOrderOfNumbers};
ghost use Rattle.hull_headline.specs.Headline.{FirstComeFirstServed, LedgersSumToLength, SegmentsAndHeldAreTheJournal};
ghost use Rattle.hull_headline.specs.Headline.{IsOfSoundSet, StoresBridgesInBuckets, StoresThatOfLivePoints};
ghost use Rattle.hull_headline.specs.Headline.{TicketsCountTheCalls, drained, kept, bucketed};
ghost use Rattle.hull_book.specs.Kinds.{kept as kept_over};
ghost use Rattle.bucket_tree.specs.Sets.{bucket_set};
ghost use Rattle.hull_tree.specs.Sets.{hull_tree};

use bucket_tree::BucketTree;
use hull_book::{Book, LongBook, segments_are_the_journal};
use hull_set::HullSet;
use hull_tree::HullTree;
use ticket_lock::partitioned_schedules_hold;

/// The headline of a book over any set, a clause for each of its sentences: what the set stores is sound, as the set defines it, and it contains the
/// live points. The law requires nothing and does nothing.
pub fn headline_holds_of_books_over<S: HullSet + Drop>()
    ensures first_come { FirstComeFirstServed (kept_over S.HullSet) }
    ensures one_holder { Always (kept_over S.HullSet) AtMostOneHolds }
    ensures sound { WheneverFree (kept_over S.HullSet) (IsOfSoundSet S.HullSet) }
    ensures multiplicities { WheneverFree (kept_over S.HullSet) (HoldsEachPointAsOften S.HullSet) }
    ensures legal { WheneverFree (kept_over S.HullSet) HasLegalJournal }
    ensures in_order { WheneverFree (kept_over S.HullSet) IsInOrderOfNumbers }
    ensures ledgers { WheneverFree (kept_over S.HullSet) LedgersSumToLength }
{
    partitioned_schedules_hold::<Box<Book<S>>>();
}

/// The headline of the book that `hullbook run --bucketed` opens, over a tree over buckets: each stored bridge is that of the points below it, each
/// bucket has the vertices of its own points, and all these are the live points.
pub fn headline_holds_of_bucketed_books()
    ensures first_come { FirstComeFirstServed bucketed }
    ensures one_holder { Always bucketed AtMostOneHolds }
    ensures bridges { WheneverFree bucketed (StoresThatOfLivePoints StoresBridgesInBuckets) }
    ensures multiplicities { WheneverFree bucketed (HoldsEachPointAsOften bucket_set) }
    ensures legal { WheneverFree bucketed HasLegalJournal }
    ensures in_order { WheneverFree bucketed IsInOrderOfNumbers }
    ensures ledgers { WheneverFree bucketed LedgersSumToLength }
{
    headline_holds_of_books_over::<BucketTree>();
}

/// The headline, a clause for each of its sentences. The law requires nothing and does nothing.
pub fn headline_holds()
    ensures first_come { FirstComeFirstServed kept }
    ensures one_holder { Always kept AtMostOneHolds }
    ensures bridges { WheneverFree kept StoresBridgesOfLivePoints }
    ensures multiplicities { WheneverFree kept (HoldsEachPointAsOften hull_tree) }
    ensures legal { WheneverFree kept HasLegalJournal }
    ensures in_order { WheneverFree kept IsInOrderOfNumbers }
    ensures ledgers { WheneverFree kept LedgersSumToLength }
{
    headline_holds_of_books_over::<HullTree>();
}

/// The headline of a book that may be drained, however often it was, each sentence about the whole journal: the segments that were taken out, in
/// their order, and then the lines that the book still has. Numbers are the lines' own, so that they have no gap; the tickets of the lines count all
/// calls, also those that found no space.
pub fn headline_holds_of_drained_books()
    ensures first_come { FirstComeFirstServed drained }
    ensures one_holder { Always drained AtMostOneHolds }
    ensures bridges { WheneverFree drained StoresBridgesOfLivePoints }
    ensures multiplicities { WheneverFree drained (HoldsEachPointAsOften hull_tree) }
    ensures legal { WheneverFree drained HasLegalJournal }
    ensures in_order { WheneverFree drained IsInOrderOfNumbers }
    ensures tickets { TicketsCountTheCalls drained }
    ensures ledgers { WheneverFree drained LedgersSumToLength }
    ensures segments { SegmentsAndHeldAreTheJournal drained }
{
    partitioned_schedules_hold::<Box<LongBook<HullTree>>>();
    segments_are_the_journal();
}
