//! A snapshot: a published value, with the prefix of the history at which it is true.
ghost use Rattle.std.specs.Prelude.{◌≡◌, IfSome};
ghost use Rattle.std.specs.Arc.{arc_value};

use super::history::{Lines, Prefix};
use counted_slot::Fits;
use logbook::Seen;
use std::marker::PhantomData;
use std::sync::Arc;

/// The type of the published values, and the property that each must have at its prefix of the history.
pub trait Truth {
    /// A line of the history.
    type Line;

    /// The published value.
    type Value: Drop;

    ghost use Rattle.std.specs.Prelude.{List};

    ghost holds: { List Self.Line → Self.Value → Type 0 };
}

/// A value, and the line as of which it is true. Nobody writes to the value while a snapshot of it is owned. Several
/// snapshots may share one value, also as of different lines.
#[derive(Drop)]
pub struct Snapshot<T: Truth> {
    pub(crate) value: Arc<T::Value>,
    pub(crate) prefix: Prefix<T::Line>,
    of: PhantomData<T>,
    ghost is_true: { ∥ T.holds prefix.seen.log (arc_value value) ∥₁ },
}

impl<T: Truth> Snapshot<T> {
    ghost use Rattle.published_snapshots.specs.Snapshots.{lines_of, number_of, seen_lines, value_of};

    /// Makes a snapshot of a value that is true as of these lines.
    pub fn new(value: Arc<T::Value>, prefix: Prefix<T::Line>) -> Snapshot<T>
        requires { T.holds (seen_lines prefix) (arc_value value) }
        ensures value { result.value ≡ value }
        ensures prefix { result.prefix ≡ prefix }
    {
        Snapshot {
            value,
            prefix,
            of: PhantomData,
        }
    }

    /// Returns another snapshot of the value, as of the same lines, or `None` if the value has too many owners.
    pub fn again(&self) -> Option<Snapshot<T>>
        ensures value { IfSome result (λ snapshot. value_of snapshot ≡ value_of self.now) }
        ensures prefix { IfSome result (λ snapshot. snapshot.prefix ≡ self.now.prefix) }
    {
        Some(Snapshot {
            value: Arc::try_clone(&self.value).ok()?,
            prefix: self.prefix.again(),
            of: PhantomData,
        })
    }

    /// Returns how many lines the history had.
    pub fn number(&self) -> u64
        ensures { result ≡ number_of self.now }
    {
        self.prefix.count()
    }

    /// Returns the value, which is true as of those lines.
    pub fn value(&self) -> &T::Value
        ensures value { result.now ≡ value_of self.now }
        ensures is_true { ∥ T.holds (lines_of self.now) result.now ∥₁ }
    {
        &self.value
    }
}

impl<T: Truth> Fits for Snapshot<T> {
    type Tag = Seen<T::Line, u64, Lines>;

    ghost fits = { λ seen snapshot. snapshot.prefix.seen.book ≡ seen.book };
}
