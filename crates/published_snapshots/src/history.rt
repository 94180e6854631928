//! A history of lines that exists only in proofs; threads share its length.
ghost use Rattle.std.specs.Prelude.{◌≡◌, ◌<◌, ◌^◌, ◌++◌, ◌∷◌, [], length, MatchBool, true, IfOk, IfErr};

use logbook::{Gain, Offer, Plain, Play, Rule, Seen, Start, Word};

/// The rule of a history: its word is how many lines it has, and lines are only added.
pub struct Lines;

impl<L> Rule<L, u64> for Lines {
    ghost use Rattle.std.specs.Prelude.{[]};
    ghost use base.Fml.{ftrue};
    ghost use Rattle.published_snapshots.specs.Histories.{HasLength};

    ghost holds = { λ cells log. HasLength cells log };

    ghost first = { [] };

    ghost hinted = { λ n log. Unit {0} };

    ghost shows = { λ log. [] };

    ghost keeps = { λ names log. ftrue };

    ghost moves = { λ ask before after answer. Unit {0} };
}

/// Nothing is traded for a line.
pub(crate) struct Nothing;

impl<L> Gain<L, u64> for Nothing {
    ghost use base.Fml.{ftrue};

    ghost after = { λ names about answer. ftrue };
}

/// The step that adds a line.
pub(crate) struct Add;

impl<L> Play<L, u64> for Add {
    ghost use Rattle.published_snapshots.specs.Histories.{Adds};

    ghost then = { Adds };
}

impl<L> Plain<L, L, u64> for Add {
    ghost use Rattle.std.specs.Prelude.{None};

    ghost ask = { λ line. line };

    ghost state = { λ line. None };
}

/// The length of a history of lines, which threads share.
#[derive(Drop)]
pub struct History<L> {
    pub(crate) length: Word<L, u64, Lines>,
    ghost of_history: { (length.tracked ≡ true) × (length.key ≡ 0) },
}

/// The prefix of the history that was seen. It has no bytes but its length, and can be sent to any thread.
#[derive(Drop)]
pub struct Prefix<L> {
    pub(crate) count: u64,
    pub(crate) seen: Seen<L, u64, Lines>,
    ghost counted: { count ≡ length seen.log },
}

/// Evidence that another thread changed a word: a step that was to change the word found it changed. Only such a step
/// makes one.
#[derive(Drop)]
pub struct Overtaken {
    made_by_a_step: (),
}

impl Overtaken {
    /// Returns the evidence of a step that found its word changed.
    pub(crate) fn by_another() -> Overtaken {
        Overtaken { made_by_a_step: () }
    }
}

impl<L> History<L> {
    ghost use Rattle.published_snapshots.specs.Snapshots.{IsPrefixOf, seen_lines};

    /// Opens a history of no lines; the prefix that it returns has seen none of it.
    pub fn open() -> (History<L>, Prefix<L>)
        ensures history { IsPrefixOf result.0 result.1 }
        ensures none { seen_lines result.1 ≡ [] }
    {
        let (seen, mut first, _second) = Seen::open(Start::alone(), 0, 0);
        (
            History {
                length: Word::tracked(0, &mut first),
            },
            Prefix { count: 0, seen },
        )
    }
}

impl<L> Prefix<L> {
    ghost use mathlib.Core.List.{IsPrefix};
    ghost use Rattle.published_snapshots.specs.Snapshots.{AreOfOneHistory, seen_lines};

    /// Returns how many lines it has.
    pub fn count(&self) -> u64
        ensures { result ≡ length (seen_lines self.now) }
    {
        self.count
    }

    /// Returns a copy.
    pub fn again(&self) -> Prefix<L>
        ensures { result ≡ self.now }
    {
        Prefix {
            count: self.count,
            seen: self.seen.again(),
        }
    }

    /// Whether it is a prefix of `other`. If not, `other` is a prefix of it.
    pub fn begins(&self, other: &Prefix<L>) -> bool
        requires { AreOfOneHistory self.now other.now }
        ensures { MatchBool result (IsPrefix (seen_lines self.now) (seen_lines other.now)) (IsPrefix (seen_lines other.now) (seen_lines self.now)) }
    {
        let mut both = self.seen.again();
        both.learn(&other.seen);
        self.count <= other.count
    }
}

impl<L: Copy> Prefix<L> {
    ghost use Rattle.published_snapshots.specs.Histories.{IsLonger};
    ghost use Rattle.published_snapshots.specs.Snapshots.{IsPrefixOf, seen_lines};

    /// Adds a line after all that was seen, and returns whether it did. It did not if the history has more lines:
    /// they are seen now.
    pub fn add(&mut self, history: &History<L>, line: L) -> bool
        requires room { length (seen_lines self.old) < 2 ^ 62 }
        requires history { IsPrefixOf history.now self.old }
        ensures history { IsPrefixOf history.now self.new }
        ensures added { MatchBool result (seen_lines self.new ≡ seen_lines self.old ++ line ∷ []) (IsLonger (seen_lines self.old) (seen_lines self.new)) }
    {
        let mut offer: Offer<L, u64, Lines, Nothing> = self.seen.plain::<Nothing, L, Add>(&line);
        let mut pen = self.seen.no_pen();
        let count = self.count;
        let found = history
            .length
            .compare_exchange::<Add, Nothing>(
                count,
                count + 1,
                &mut self.seen,
                &mut offer,
                &mut pen,
            );
        self.count = if found == count { count + 1 } else { found };
        found == count
    }

    /// Does what [`add`](Prefix::add) does.
    ///
    /// # Errors
    ///
    /// Fails with the evidence that another thread added lines, if the history had more lines; they are seen now.
    pub fn add_unless_overtaken(&mut self, history: &History<L>, line: L) -> Result<(), Overtaken>
        requires room { length (seen_lines self.old) < 2 ^ 62 }
        requires history { IsPrefixOf history.now self.old }
        ensures history { IsPrefixOf history.now self.new }
        ensures added { IfOk result (λ _. seen_lines self.new ≡ seen_lines self.old ++ line ∷ []) }
        ensures overtaken { IfErr result (λ _. IsLonger (seen_lines self.old) (seen_lines self.new)) }
    {
        if self.add(history, line) {
            Ok(())
        } else {
            Err(Overtaken::by_another())
        }
    }
}
