//! The data of its two halves that a fork stores.
ghost use Rattle.std.specs.Prelude.{◌≡◌, ◌≤◌};
ghost use Rattle.hull_tree.specs.Nodes.{keeping};

use super::node::Node;
use lattice::Point;

/// The data of its two halves that a fork stores, and how many turns the searches for its bridges took.
#[derive(Clone, Copy)]
pub(crate) struct Found {
    pub(crate) upper: (Point, Point),
    pub(crate) lower: (Point, Point),
    pub(crate) height: u32,
    pub(crate) near: bool,
    pub(crate) turns: u32,
}

/// Stores a point if it differs from the stored one.
fn keep_point(kept: &mut Point, found: Point)
    ensures { kept.new ≡ found }
{
    if *kept != found {
        *kept = found;
    }
}

/// Stores a height if it differs from the stored one.
fn keep_height(kept: &mut u16, found: u32)
    requires { found ≤ 65535 }
    ensures { kept.new ≡ found }
{
    let height = found as u16;
    if *kept != height {
        *kept = height;
    }
}

/// Stores whether all points are near, if that differs from the stored value.
fn keep_near(kept: &mut bool, found: bool)
    ensures { kept.new ≡ found }
{
    if *kept != found {
        *kept = found;
    }
}

/// Stores what was found of a fork if it differs from what is stored: most searches find the bridge that is already there.
pub(crate) fn keep(node: &mut Node, found: Found)
    requires { found.height ≤ 65535 }
    ensures { node.new ≡ keeping node.old found.upper found.lower found.height found.near }
{
    keep_point(&mut node.upper.0, found.upper.0);
    keep_point(&mut node.upper.1, found.upper.1);
    keep_point(&mut node.lower.0, found.lower.0);
    keep_point(&mut node.lower.1, found.lower.1);
    keep_height(&mut node.height, found.height);
    keep_near(&mut node.near, found.near);
}
