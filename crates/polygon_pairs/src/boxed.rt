//! The boxes of polygons, for a sweep.
ghost use Rattle.std.specs.Prelude.{◌≡◌, ◌↔◌, ◌*◌, ◌-◌, ◌<◌, ◌≤◌, ◌^◌, IfOk, IsTrue, MatchOption, length};
ghost use Rattle.std.specs.List.{All};
ghost use Rattle.std.specs.List.Sorted.{IsNonDecreasingBy, IsPermutation};
ghost use Rattle.hull_polygon.specs.Polygons.{IsShortPolygon};
ghost use Rattle.polygon_pairs.specs.Boxes.{side_at, AreAcross, AreBoxes, BeginsBeyond, IsBoxOf};

use heap::Heap;
use hull_polygon::{Length, Polygon};
use lattice::{COORDINATE_LIMIT, Point};
use std::alloc::AllocError;

/// The smallest box, with sides along the axes, that contains a polygon with vertices, and the index of the polygon.
/// Sides are unsigned: they count from the least coordinate.
#[derive(Clone, Copy)]
pub(crate) struct Boxed {
    pub(crate) left: u64,
    pub(crate) right: u64,
    pub(crate) bottom: u64,
    pub(crate) top: u64,
    pub(crate) index: u32,
}

/// Returns the first coordinate of a point, counted from the least.
fn column_of(point: Point) -> u64
    ensures { side_at result ≡ point.x }
{
    (point.x() + COORDINATE_LIMIT) as u64
}

/// Returns the second coordinate of a point, counted from the least.
fn row_of(point: Point) -> u64
    ensures { side_at result ≡ point.y }
{
    (point.y() + COORDINATE_LIMIT) as u64
}

/// Returns the box between two points, with an index.
fn boxed_between(least: Point, greatest: Point, index: u32) -> Boxed
    ensures left { side_at result.left ≡ least.x }
    ensures bottom { side_at result.bottom ≡ least.y }
    ensures right { side_at result.right ≡ greatest.x }
    ensures top { side_at result.top ≡ greatest.y }
    ensures index { result.index ≡ index }
{
    Boxed {
        left: column_of(least),
        right: column_of(greatest),
        bottom: row_of(least),
        top: row_of(greatest),
        index,
    }
}

/// Returns the box of a polygon, if it has vertices.
fn box_of(polygon: &[Point], index: u32) -> Option<Boxed>
    requires { IsShortPolygon polygon.now }
    ensures { MatchOption result (length polygon.now ≡ 0) (λ b. IsBoxOf polygon.now b × (b.index ≡ index)) }
{
    if polygon.is_empty() {
        return None;
    }
    match Polygon::of_vertices(polygon).bounding_box() {
        Some(ends) => Some(boxed_between(ends.0, ends.1, index)),
        None => unreachable!(),
    }
}

/// Returns the boxes of the polygons that have vertices, in the order of the polygons. Memory may be refused.
fn all_boxes(alloc: Heap, polygons: &[&[Point]]) -> Result<Vec<Boxed, Heap>, AllocError>
    requires polygons { All (λ o. IsShortPolygon o.now) polygons.now }
    requires few { length polygons.now < 2 ^ 32 }
    ensures { IfOk result (λ boxes. AreBoxes polygons.now (length polygons.now) boxes.items) }
{
    let mut boxes = Vec::with_capacity(alloc, polygons.len())?;
    for i in 0..polygons.len() {
        if let Some(found) = box_of(polygons[i], i as u32) {
            boxes.push_reserved(found);
        }
    }
    Ok(boxes)
}

/// Sorts boxes by their left sides.
fn sort(boxes: &mut [Boxed])
    ensures permutation { IsPermutation boxes.old boxes.new }
    ensures sorted { IsNonDecreasingBy (λ b. b.left) boxes.new }
{
    boxes.sort_unstable_by_key(|b| b.left);
}

/// Returns the boxes of the polygons that have vertices, by their left sides. Memory may be refused.
pub(crate) fn sorted_boxes(
    alloc: Heap,
    polygons: &[&[Point]],
) -> Result<Vec<Boxed, Heap>, AllocError>
    requires polygons { All (λ o. IsShortPolygon o.now) polygons.now }
    requires few { length polygons.now < 2 ^ 32 }
    ensures boxes { IfOk result (λ boxes. AreBoxes polygons.now (length polygons.now) boxes.items) }
    ensures sorted { IfOk result (λ boxes. IsNonDecreasingBy (λ b. b.left) boxes.items) }
{
    let mut boxes = all_boxes(alloc, polygons)?;
    sort(&mut boxes);
    Ok(boxes)
}

/// Whether a gap is wider than a length.
fn is_wider(gap: u64, reach: Length) -> bool
    ensures { IsTrue result ↔ (reach.numerator < reach.denominator * gap) }
{
    u128::from(reach.numerator) < u128::from(reach.denominator) * u128::from(gap)
}

/// Whether the second box begins farther right of the first than the length.
pub(crate) fn begins_beyond(here: &Boxed, there: &Boxed, reach: Length) -> bool
    ensures { IsTrue result ↔ BeginsBeyond reach here.now there.now }
{
    is_wider(there.left.saturating_sub(here.right), reach)
}

/// Whether one of the boxes lies farther above the other than the length.
pub(crate) fn are_across(here: &Boxed, there: &Boxed, reach: Length) -> bool
    ensures { IsTrue result ↔ AreAcross reach here.now there.now }
{
    is_wider(there.bottom.saturating_sub(here.top), reach)
        || is_wider(here.bottom.saturating_sub(there.top), reach)
}
