//! An octagon inside a hull, in which a point is located by eight comparisons.
ghost use Rattle.std.specs.Prelude.{◌↔◌, ◌≡◌, ◌<◌, ◌+ℤ◌, ◌-ℤ◌, ◌<ℤ◌, IsTrue, List, pos, ℤ, length};
ghost use Rattle.std.specs.List.{Contains};
ghost use Rattle.lattice.specs.Plane.{IsCoordinate, Pair};
ghost use Rattle.hull_plain.specs.Octagons.{IsBetween, IsInOctagon, IsInRectangle, IsOctagonInside};

use super::extremes::farthest;
use lattice::{Direction, Point};
use tiered_list::TieredList;

/// The numbers above one number and below another.
#[derive(Clone, Copy)]
struct Span {
    low: i64,
    high: i64,
}

/// Whether a number is in the span.
fn is_between(span: Span, z: i64) -> bool
    ensures { IsTrue result ↔ IsBetween span z }
{
    span.low < z && z < span.high
}

/// Returns the span of the numbers above both of the first two and below both of the others.
fn span_between(lows: (i64, i64), highs: (i64, i64)) -> Span
    ensures { (z : ℤ) → IsBetween result z ↔ ((lows.0 <ℤ z) × (lows.1 <ℤ z) × (z <ℤ highs.0) × (z <ℤ highs.1)) }
{
    Span {
        low: lows.0.max(lows.1),
        high: highs.0.min(highs.1),
    }
}

/// Returns x + y.
fn sum_of(p: Point) -> i64
    ensures { result ≡ p.x +ℤ p.y }
{
    p.x() + p.y()
}

/// Returns x - y.
fn difference_of(p: Point) -> i64
    ensures { result ≡ p.x -ℤ p.y }
{
    p.x() - p.y()
}

/// How many covered points are located by a search before an octagon is made anew.
const MOST_SEARCHES: u32 = 64;

/// The pairs of a number in one span and a number in another.
#[derive(Clone, Copy)]
struct Rectangle {
    x: Span,
    y: Span,
}

/// Whether a pair of numbers is in the rectangle.
fn is_in_rectangle(rectangle: Rectangle, x: i64, y: i64) -> bool
    ensures { IsTrue result ↔ IsInRectangle rectangle x y }
{
    is_between(rectangle.x, x) && is_between(rectangle.y, y)
}

/// The points whose coordinates are in one rectangle, and whose x + y and x - y are in another: an octagon without its
/// boundary.
#[derive(Clone, Copy)]
struct Octagon {
    upright: Rectangle,
    diagonal: Rectangle,
}

impl Octagon {
    /// Returns the octagon of no points.
    fn empty() -> Octagon
        ensures { (q : Pair) → ¬ (IsInOctagon result q) }
    {
        let span = Span {
            low: i64::MAX,
            high: i64::MIN,
        };
        let rectangle = Rectangle { x: span, y: span };
        Octagon {
            upright: rectangle,
            diagonal: rectangle,
        }
    }

    /// Whether `q` is in the octagon.
    fn has_point(&self, q: Point) -> bool
        ensures { IsTrue result ↔ IsInOctagon self.now q }
    {
        is_in_rectangle(self.upright, q.x(), q.y())
            && is_in_rectangle(self.diagonal, sum_of(q), difference_of(q))
    }
}

/// Returns a vertex of the chain that lies far in the direction of two numbers.
fn corner(chain: &TieredList, dx: i64, dy: i64) -> Point
    requires some { 0 < length chain.now.items }
    requires right { IsCoordinate dx }
    requires up { IsCoordinate dy }
    requires nonzero { ¬ (dy ≡ pos 0) }
    ensures { Contains chain.now.items result }
{
    let Ok(d) = Direction::new(dx, dy) else {
        unreachable!()
    };
    farthest(chain, d)
}

/// Returns an octagon inside the hull of these two chains: for each two adjacent sides, a vertex that lies far between
/// their normals is on both of them or outwards. Of a disk it is nine tenths.
fn octagon_inside(lower: &TieredList, upper: &TieredList) -> Octagon
    ensures { IsOctagonInside lower.now.items upper.now.items result }
{
    if lower.is_empty() || upper.is_empty() {
        return Octagon::empty();
    }
    let right_up = corner(upper, 2, 1);
    let up_right = corner(upper, 1, 2);
    let up_left = corner(upper, -1, 2);
    let left_up = corner(upper, -2, 1);
    let left_down = corner(lower, -2, -1);
    let down_left = corner(lower, -1, -2);
    let down_right = corner(lower, 1, -2);
    let right_down = corner(lower, 2, -1);
    let x = span_between((left_up.x(), left_down.x()), (right_up.x(), right_down.x()));
    let y = span_between((down_left.y(), down_right.y()), (up_left.y(), up_right.y()));
    let sum = span_between(
        (sum_of(left_down), sum_of(down_left)),
        (sum_of(right_up), sum_of(up_right)),
    );
    let difference = span_between(
        (difference_of(up_left), difference_of(left_up)),
        (difference_of(down_right), difference_of(right_down)),
    );
    Octagon {
        upright: Rectangle { x, y },
        diagonal: Rectangle {
            x: sum,
            y: difference,
        },
    }
}

/// An octagon inside a hull that grows, with the counts by which it is made anew.
#[derive(Drop)]
pub(crate) struct InnerOctagon {
    octagon: Octagon,
    /// If the hull has grown since the octagon was made, the number of covered points that were not in it.
    searches: Option<u32>,
}

impl InnerOctagon {
    /// Returns the octagon of no points, which is inside every hull.
    pub(crate) fn new() -> InnerOctagon
        ensures { (lower upper : List Pair) → IsOctagonInside lower upper result.octagon }
    {
        InnerOctagon {
            octagon: Octagon::empty(),
            searches: None,
        }
    }

    /// Whether `q` is in the octagon, and so inside the hull.
    pub(crate) fn has_point(&self, q: Point) -> bool
        ensures { IsTrue result ↔ IsInOctagon self.now.octagon q }
    {
        self.octagon.has_point(q)
    }

    /// Notes that the hull has grown.
    pub(crate) fn note_growth(&mut self)
        ensures { self.new.octagon ≡ self.old.octagon }
    {
        if self.searches.is_none() {
            self.searches = Some(0);
        }
    }

    /// Counts that a point was located by a search of these chains, which cover it. After [`MOST_SEARCHES`] of them the
    /// octagon is made anew if the hull has grown, so that each search takes a small share of the time for that.
    pub(crate) fn count_search(&mut self, lower: &TieredList, upper: &TieredList)
        ensures { IsOctagonInside lower.now.items upper.now.items self.old.octagon
            → IsOctagonInside lower.now.items upper.now.items self.new.octagon }
    {
        match self.searches {
            None => (),
            Some(count) if count < MOST_SEARCHES => self.searches = Some(count + 1),
            Some(_) => {
                self.octagon = octagon_inside(lower, upper);
                self.searches = None;
            }
        }
    }
}
