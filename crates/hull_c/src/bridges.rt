//! The bridges that a set's tree stores, a level at a time, in an array of the caller's.
ghost use Rattle.std.specs.Prelude.{◌≡◌, ◌≤◌, ◌++◌, length, drop};
ghost use Rattle.hull_c.specs.Bridges.{AreBridges, EncodesBridges};

use super::hull::Hull;
use bucket_tree::bucket_trees_are_sound;
use hull_reply::{Code, HullPoint, HullReply};
use leaf_trees::Bridge;
use std::marker::Model;

/// The two bridges that a fork of the tree stores, each by its ends in the left and in the right half.
#[repr(C)]
#[derive(Clone, Copy)]
pub struct HullBridge {
    /// How many forks there are above this one: its depth.
    pub level: u32,
    /// The left end of the upper bridge.
    pub upper_left: HullPoint,
    /// The right end of the upper bridge.
    pub upper_right: HullPoint,
    /// The left end of the lower bridge.
    pub lower_left: HullPoint,
    /// The right end of the lower bridge.
    pub lower_right: HullPoint,
}

impl Model for HullBridge {
    ghost use Rattle.leaf_trees.specs.declared.bridge.Bridge.{Bridge};

    ghost Value = { Bridge };

    ghost view = { λ b. record {
      level = b.level;
      upper = (b.upper_left, b.upper_right);
      lower = (b.lower_left, b.lower_right);
    } };

    ghost inverse = { λ b. record {
      level = b.level;
      upper_left = b.upper.0;
      upper_right = b.upper.1;
      lower_left = b.lower.0;
      lower_right = b.lower.1;
    } };
}

impl HullBridge {
    /// Returns the bridges of a fork, with their coordinates open.
    fn of(bridge: Bridge) -> HullBridge
        ensures { result ≡ bridge }
    {
        HullBridge {
            level: bridge.level,
            upper_left: HullPoint::of(bridge.upper.0),
            upper_right: HullPoint::of(bridge.upper.1),
            lower_left: HullPoint::of(bridge.lower.0),
            lower_right: HullPoint::of(bridge.lower.1),
        }
    }
}

/// Writes the bridges to the front of the array.
fn write_bridges(bridges: &[Bridge], out: &mut [HullBridge])
    requires { length bridges.now ≤ length out.now }
    ensures { out.new ≡ bridges.now ++ drop (length bridges.now) out.old }
{
    for i in 0..bridges.len() {
        out[i] = HullBridge::of(bridges[i]);
    }
}

/// Writes the bridges to the front of the array, if all of them fit, and returns their number.
fn put_bridges(bridges: &[Bridge], out: &mut [HullBridge]) -> HullReply
    ensures { EncodesBridges bridges.now out.old out.new result }
{
    let number = bridges.len();
    if number > out.len() {
        return HullReply::numbered(Code::TooSmall, number as u64);
    }
    write_bridges(bridges, out);
    HullReply::numbered(Code::Number, number as u64)
}

/// Writes the bridges that the forks of a level store.
pub(crate) fn bridges(hull: &mut Hull, level: u32, out: &mut [HullBridge]) -> HullReply
    ensures { AreBridges hull.old hull.new level out.old out.new result }
{
    let tree = hull.tree();
    bucket_trees_are_sound(tree);
    let Ok(bridges) = tree.bridges_at(level) else {
        return HullReply::bare(Code::NoMemory);
    };
    put_bridges(&bridges, out)
}
