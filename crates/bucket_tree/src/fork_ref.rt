//! Borrowed forks.
ghost use Rattle.std.specs.Prelude.{◌≤◌};
ghost use Rattle.bridge_search.specs.OneWay.{IsBridged-prop};
ghost use Rattle.bridge_search.specs.Trees.{IsBridged, height_of, highest};
ghost use Rattle.bucket_tree.specs.Nodes.{tree_at, AreWhole};
ghost use Rattle.bucket_tree.specs.OneWay.{AreWhole-prop};

use crate::node::Fork;

/// A borrowed fork whose edges are the bridges of its halves.
#[derive(Clone, Copy)]
pub struct ForkRef<'a> {
    pub(crate) fork: &'a Fork,
    ghost whole: { AreWhole fork.now } by { AreWhole-prop fork.now },
    ghost bridged: { IsBridged (tree_at fork.now) } by { IsBridged-prop (tree_at fork.now) },
    ghost low: { height_of (tree_at fork.now) ≤ highest },
}
