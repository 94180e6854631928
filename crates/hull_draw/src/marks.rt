ghost use Rattle.std.specs.Prelude.{◌≡◌, ◌++◌, map, OnOk, IfOk};
ghost use Rattle.std.specs.List.{All};
ghost use Rattle.hull_tree.specs.Roots.{held_by};
ghost use Rattle.hull_tree.specs.Nodes.{tree_of};
ghost use Rattle.bridge_search.specs.Leaves.{points_of};
ghost use Rattle.hull_draw.specs.Scenes.{AreMarks};

use hull_set::HullSet;
use hull_tree::{HullTree, Node};
use lattice::Point;
use std::alloc::{AllocError, Global};

/// How many points are drawn at most, besides the vertices.
pub const DRAWN_LIMIT: usize = 4000;

/// How many points a set may have for its multiplicities to be written.
pub const LABEL_LIMIT: usize = 400;

/// A point of the set, with its multiplicity.
#[derive(Clone, Copy, PartialEq, Eq, Debug)]
pub struct Mark {
    /// The point.
    pub point: Point,
    /// Its multiplicity.
    pub multiplicity: u32,
}

/// Puts the points below a node, in order, after those that are there.
fn put_points(node: &Node, points: &mut Vec<Point>) -> Result<(), AllocError>
    ensures { OnOk result (points.new.items ≡ points.old.items ++ points_of (tree_of node.now)) }
{
    if let Some((left, right)) = node.halves() {
        put_points(left, points)?;
        put_points(right, points)?;
    } else if let Some(point) = node.point() {
        points.push(point)?;
    }
    Ok(())
}

/// Returns the points of the set, in order.
fn points(alloc: Global, set: &HullTree) -> Result<Vec<Point>, AllocError>
    ensures { IfOk result (λ points. points.items ≡ (held_by set.now.root).points) }
{
    let mut points = Vec::new(alloc);
    if let Some(root) = set.root() {
        put_points(root, &mut points)?;
    }
    Ok(points)
}

/// Returns the points of the set, in order, each with its multiplicity.
pub(crate) fn marks(alloc: Global, set: &HullTree) -> Result<Vec<Mark>, AllocError>
    ensures { IfOk result (λ marks. AreMarks (held_by set.now.root) marks.items) }
{
    let mut marks = Vec::new(alloc);
    let points = points(alloc, set)?;
    for point in &points {
        let multiplicity = set.multiplicity(*point);
        marks.push(Mark {
            point: *point,
            multiplicity,
        })?;
    }
    Ok(marks)
}
