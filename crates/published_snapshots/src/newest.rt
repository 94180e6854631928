//! A word that only rises: the number of the newest value that was published, and its slot.
ghost use Rattle.std.specs.Prelude.{◌≡◌, ◌≤◌, true, IsTrue};

use super::history::Nothing;
use logbook::{Gain, Offer, Plain, Play, Rule, Seen, Start, Word};

/// By how much the word rose.
#[derive(Clone, Copy)]
pub struct Rise {
    pub(crate) by: u64,
}

/// The rule of the word: it is the sum of its rises.
pub struct Rises;

impl Rule<Rise, u64> for Rises {
    ghost use Rattle.std.specs.Prelude.{[]};
    ghost use base.Fml.{ftrue};
    ghost use Rattle.published_snapshots.specs.Numbers.{IsRaised};

    ghost holds = { λ cells log. IsRaised cells log };

    ghost first = { [] };

    ghost hinted = { λ n log. Unit {0} };

    ghost shows = { λ log. [] };

    ghost keeps = { λ names log. ftrue };

    ghost moves = { λ ask before after answer. Unit {0} };
}

/// The step that loads the word.
struct Observe;

impl Play<Rise, u64> for Observe {
    ghost use Rattle.published_snapshots.specs.Numbers.{Observes};

    ghost then = { Observes };
}

/// The step that raises the word.
struct Raise;

impl Play<Rise, u64> for Raise {
    ghost use Rattle.published_snapshots.specs.Numbers.{RaisesOrObserves};

    ghost then = { RaisesOrObserves };
}

impl Plain<Rise, Rise, u64> for Raise {
    ghost use Rattle.std.specs.Prelude.{None};

    ghost ask = { λ rise. rise };

    ghost state = { λ rise. None };
}

/// The number of the newest value and its slot, in one word. If they were two words, a reader could load the number
/// of one value and the slot of a newer one that is still being written, and its next snapshot could have a smaller
/// number.
#[derive(Drop)]
pub struct Newest {
    pub(crate) word: Word<Rise, u64, Rises>,
    ghost of_word: { (word.tracked ≡ true) × (word.key ≡ 0) },
}

/// A watermark: evidence that a value with some number was published. It has no bytes, can be copied, and can be sent
/// to any thread.
#[derive(Drop)]
pub struct Watermark {
    pub(crate) seen: Seen<Rise, u64, Rises>,
}

impl Watermark {
    ghost use Rattle.published_snapshots.specs.Numbers.{AreOfOneWord, IsLaterWatermark, watermark_word};

    /// Returns a copy.
    pub fn again(&self) -> Watermark
        ensures { result ≡ self.now }
    {
        Watermark {
            seen: self.seen.again(),
        }
    }

    /// Raises the watermark to the other one, if that one is greater.
    pub fn learn(&mut self, other: &Watermark)
        requires { AreOfOneWord self.old other.now }
        ensures more { IsLaterWatermark self.old self.new }
        ensures theirs { watermark_word other.now ≤ watermark_word self.new }
    {
        self.seen.learn(&other.seen);
    }
}

impl Newest {
    ghost use Rattle.published_snapshots.specs.Numbers.{IsLaterWatermark, watermark_word};
    ghost use Rattle.published_snapshots.specs.Snapshots.{IsWatermarkOfWord};

    /// Opens a word that was never raised, with a watermark of 0.
    pub fn open() -> (Newest, Watermark)
        ensures word { IsWatermarkOfWord result.0 result.1 }
        ensures nothing { watermark_word result.1 ≡ 0 }
    {
        let (seen, mut first, _second) = Seen::open(Start::alone(), 0, 0);
        (
            Newest {
                word: Word::tracked(0, &mut first),
            },
            Watermark { seen },
        )
    }

    /// Returns the word, and raises the watermark to it.
    pub(crate) fn observe(&self, watermark: &mut Watermark) -> u64
        requires { IsWatermarkOfWord self.now watermark.old }
        ensures more { IsLaterWatermark watermark.old watermark.new }
        ensures word { result ≡ watermark_word watermark.new }
    {
        let mut offer: Offer<Rise, u64, Rises, Nothing> = watermark
            .seen
            .plain::<Nothing, Rise, Raise>(&Rise { by: 0 });
        self.word
            .load::<Observe, Nothing>(&mut watermark.seen, &mut offer)
    }

    /// Raises the word from `from` to `to` if it is `from`, and returns whether it was.
    pub(crate) fn raise(&self, watermark: &mut Watermark, from: u64, to: u64) -> bool
        requires rising { from ≤ to }
        requires word { IsWatermarkOfWord self.now watermark.old }
        ensures more { IsLaterWatermark watermark.old watermark.new }
        ensures word { IsTrue result → watermark_word watermark.new ≡ to }
    {
        let mut offer: Offer<Rise, u64, Rises, Nothing> = watermark
            .seen
            .plain::<Nothing, Rise, Raise>(&Rise { by: to - from });
        let mut pen = watermark.seen.no_pen();
        let found = self
            .word
            .compare_exchange::<Raise, Nothing>(
                from,
                to,
                &mut watermark.seen,
                &mut offer,
                &mut pen,
            );
        found == from
    }
}
