//! The content of a set's storage.
ghost use Rattle.std.specs.Prelude.{◌≡◌, ◌≤◌};
ghost use Rattle.hull_set.specs.declared.TheConstants.{POINT_LIMIT};

use bucket_tree::BucketTree;
use hull_set::HullSet;
use prepared_set::Prepared;
use std::marker::Model;

/// A tree, and its vertices in an array while they are known. Contracts see only the tree.
#[derive(Drop)]
pub(crate) struct Hull {
    pub(crate) set: Prepared<BucketTree>,
}

impl Model for Hull {
    ghost use Rattle.bucket_tree.specs.contracts.tree.BucketTree as tree;
    ghost use Rattle.bucket_tree.specs.Sets.{LimitedTree};

    ghost Value = { LimitedTree };

    ghost coded = { tree.the_row.coded };

    ghost view = { λ h. h.set.set };
}

impl Hull {
    /// Makes a set of this tree, of whose vertices nothing is known.
    pub(crate) fn new(tree: BucketTree) -> Hull
        ensures { result ≡ tree }
    {
        Hull {
            set: Prepared::new(tree),
        }
    }

    /// Returns the tree.
    pub(crate) fn tree(&self) -> &BucketTree
        ensures { result.now ≡ self.now }
    {
        self.set.set()
    }

    /// Returns how many points it takes.
    pub(crate) fn limit(&self) -> u32
        ensures limit { result ≡ self.now.limit }
        ensures low { 1 ≤ result }
        ensures high { result ≤ POINT_LIMIT }
    {
        self.set.limit()
    }
}
