use bucket_tree::BucketTree;
use hull_set::{AddReply, HullSet};
use hull_tree::HullTree;
use lattice::Point;

/// A set whose changes also return their turns.
pub trait CountedSet: HullSet + Drop {
    /// Adds `p` once. Returns whether it is new, and how many turns the searches of bridges took.
    fn add_counted(&mut self, p: Point) -> (bool, u32);

    /// Removes `p` once. Returns how many turns the searches of bridges took.
    fn remove_counted(&mut self, p: Point) -> u32;
}

impl CountedSet for HullTree {
    fn add_counted(&mut self, p: Point) -> (bool, u32) {
        let (reply, turns) = HullTree::add_counted(self, p);
        (reply == AddReply::Added, turns)
    }

    fn remove_counted(&mut self, p: Point) -> u32 {
        HullTree::remove_counted(self, p).1
    }
}

impl CountedSet for BucketTree {
    fn add_counted(&mut self, p: Point) -> (bool, u32) {
        let (reply, turns) = BucketTree::add_counted(self, p);
        (reply == AddReply::Added, turns)
    }

    fn remove_counted(&mut self, p: Point) -> u32 {
        BucketTree::remove_counted(self, p).1
    }
}
