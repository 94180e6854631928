//! Questions about the hull of all points below a node, which go down its vertices only.
ghost use Rattle.std.specs.Prelude.{◌<◌, ◌≤◌, length, vec_len, IfOk, pos};
ghost use Rattle.bridge_search.specs.Leaves.{points_of};
ghost use Rattle.bridge_search.specs.Trees.{height_of, size_of};
ghost use Rattle.lattice.specs.Vertices.{IsVertexList, IsDoubledArea};
ghost use Rattle.hull_geometry.specs.CandidateLists.{AnswersFor};
ghost use Rattle.hull_geometry.specs.Tangents.{IsFirstFarthest};
ghost use Rattle.hull_set.specs.Replies.{LiesAt, AnswersTangents, reply_to_tangents};
ghost use Rattle.hull_set.specs.declared.TheConstants.{POINT_LIMIT};
ghost use Rattle.bucket_tree.specs.Nodes.{tree_of, points_below, IsWhole, IsWellBuilt};

use crate::chains::vertices_of;
use crate::node::Node;
use crate::part::Part;
use heap::Heap;
use hull_set::Place;
use lattice::{Direction, Point};
use std::alloc::AllocError;

/// The vertices below a node answer each question about the hull of all points below it.
pub fn vertices_answer(node: &Node)
    requires { IsWellBuilt node.now }
    ensures { AnswersFor (points_of (tree_of node.now)) (points_below node.now) }
{}

/// The vertices below a node are no more than its points, and the half of them is not too high.
pub fn vertices_are_few(node: &Node)
    requires { IsWellBuilt node.now }
    ensures whole { IsWhole node.now }
    ensures few { size_of (tree_of node.now) ≤ length (points_below node.now) }
    ensures low { height_of (tree_of node.now) < length (points_below node.now) }
{}

/// Returns the first, by x and then y, of the points below a node that are farthest in the direction `d`.
pub fn extreme(node: &Node, d: Direction) -> Point
    requires built { IsWellBuilt node.now }
    requires few { length (points_below node.now) ≤ POINT_LIMIT }
    ensures { IsFirstFarthest (points_below node.now) d result }
{
    vertices_answer(node);
    vertices_are_few(node);
    hull_questions::extreme(Part::new(node), d)
}

/// Returns where `q` is, relative to the hull of the points below a node.
pub fn place(node: &Node, q: Point) -> Place
    requires built { IsWellBuilt node.now }
    requires few { length (points_below node.now) ≤ POINT_LIMIT }
    ensures { LiesAt (points_below node.now) q result }
{
    vertices_answer(node);
    vertices_are_few(node);
    hull_questions::place(Part::new(node), q)
}

/// Returns the left and the right tangent point as seen from `q`, or nothing if the hull of the points below a node contains it.
pub fn tangents(node: &Node, q: Point) -> Option<(Point, Point)>
    requires built { IsWellBuilt node.now }
    requires few { length (points_below node.now) ≤ POINT_LIMIT }
    ensures { AnswersTangents (points_below node.now) q (reply_to_tangents result) }
{
    vertices_answer(node);
    vertices_are_few(node);
    hull_questions::tangents(Part::new(node), q)
}

/// Returns the vertices of the hull of the points below a node, counterclockwise from the first; no more than there are points. Fails only if `alloc`
/// refuses memory.
pub fn vertices(alloc: Heap, node: &Node) -> Result<Vec<Point, Heap>, AllocError>
    requires built { IsWellBuilt node.now }
    requires few { length (points_below node.now) ≤ POINT_LIMIT }
    ensures vertices { IfOk result (λ v. IsVertexList (points_below node.now) v.items) }
    ensures few { IfOk result (λ v. vec_len v ≤ length (points_below node.now)) }
{
    vertices_answer(node);
    vertices_are_few(node);
    vertices_of(alloc, node)
}

/// Returns the doubled area of the hull of the points below a node.
pub fn area2(node: &Node) -> u128
    requires built { IsWellBuilt node.now }
    requires few { length (points_below node.now) ≤ POINT_LIMIT }
    ensures { IsDoubledArea (points_below node.now) (pos result) }
{
    vertices_answer(node);
    vertices_are_few(node);
    hull_questions::area2(Part::new(node))
}
