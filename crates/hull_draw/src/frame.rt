ghost use Rattle.std.specs.Prelude.{◌≡◌, ◌⊎◌, ◌≤◌, ◌^◌, ◌≤ℤ◌};
ghost use Rattle.hull_draw.specs.Frames.{IsFrameOf, IsEither, Widens, across, down, from_left, from_top};
ghost use Rattle.hull_draw.specs.Frames.{extent_of, unit_of, side_of, width_of, height_of};

use super::marks::Mark;
use lattice::Point;

/// The sides of a picture's square are shorter than so many of its units, so that browsers distinguish whole numbers:
/// if the plane's square is that wide or wider, a unit of the picture is several of the plane's.
pub const PICTURE_UNITS: u64 = 16_777_216;

/// The least square of the plane that contains some points, with them in its middle. It is represented by points at
/// its edges.
#[derive(Clone, Copy, PartialEq, Eq, Debug)]
pub struct Frame {
    /// A point as far to the left as any.
    pub left: Point,
    /// A point as far to the right as any.
    pub right: Point,
    /// A point as far up as any.
    pub top: Point,
    /// A point as far down as any.
    pub bottom: Point,
}

impl Frame {
    /// Makes the frame of one point.
    fn of_point(point: Point) -> Frame
        ensures { result ≡ record { left = point; right = point; top = point; bottom = point } }
    {
        Frame {
            left: point,
            right: point,
            top: point,
            bottom: point,
        }
    }

    fn width(&self) -> u64
        ensures value { result ≡ width_of self.now }
        ensures small { result ≤ 2 ^ 41 }
    {
        (self.right.x() - self.left.x()).unsigned_abs()
    }

    fn height(&self) -> u64
        ensures value { result ≡ height_of self.now }
        ensures small { result ≤ 2 ^ 41 }
    {
        (self.top.y() - self.bottom.y()).unsigned_abs()
    }

    /// Returns the length of the square's sides, at least 2.
    #[tactic(auto, unfolding(crate::specs::Frames::extent_of))]
    pub(crate) fn extent(&self) -> u64
        ensures value { result ≡ extent_of self.now }
        ensures wide { width_of self.now ≤ result }
        ensures high { height_of self.now ≤ result }
        ensures side { 2 ≤ result }
        ensures small { result ≤ 2 ^ 41 }
    {
        self.width().max(self.height()).max(2)
    }

    /// Returns how many units of the plane one of the picture is.
    #[tactic(auto, unfolding(crate::specs::Frames::unit_of))]
    fn unit(&self) -> u64
        ensures value { result ≡ unit_of self.now }
        ensures least { 1 ≤ result }
        ensures small { result ≤ extent_of self.now }
    {
        self.extent() / PICTURE_UNITS + 1
    }

    /// Returns the length of the square's sides in the picture, at least 1.
    #[tactic(auto, unfolding(crate::specs::Frames::side_of))]
    pub(crate) fn side(&self) -> u64
        ensures value { result ≡ side_of self.now }
        ensures least { 1 ≤ result }
    {
        self.extent() / self.unit()
    }

    /// Returns the distance of a point from the left edge.
    #[tactic(auto, unfolding(crate::specs::Frames::from_left))]
    fn from_left(&self, point: Point) -> u64
        ensures value { result ≡ from_left self.now point }
        ensures small { result ≤ 2 ^ 42 }
    {
        let margin = (self.extent() - self.width()) / 2;
        (point.x() - self.left.x()).unsigned_abs() + margin
    }

    /// Returns the distance of a point from the upper edge.
    #[tactic(auto, unfolding(crate::specs::Frames::from_top))]
    fn from_top(&self, point: Point) -> u64
        ensures value { result ≡ from_top self.now point }
        ensures small { result ≤ 2 ^ 42 }
    {
        let margin = (self.extent() - self.height()) / 2;
        (self.top.y() - point.y()).unsigned_abs() + margin
    }

    /// Returns how far from the left edge a point is drawn, in units of the picture.
    #[tactic(auto, unfolding(crate::specs::Frames::across))]
    pub(crate) fn across(&self, point: Point) -> u64
        ensures value { result ≡ across self.now point }
        ensures small { result ≤ 2 ^ 42 }
    {
        self.from_left(point) / self.unit()
    }

    /// Returns how far from the upper edge a point is drawn, in units of the picture.
    #[tactic(auto, unfolding(crate::specs::Frames::down))]
    pub(crate) fn down(&self, point: Point) -> u64
        ensures value { result ≡ down self.now point }
        ensures small { result ≤ 2 ^ 42 }
    {
        self.from_top(point) / self.unit()
    }

    /// Returns the frame of its points and another one.
    fn widened(&self, point: Point) -> Frame
        ensures { Widens self.now point result }
    {
        Frame {
            left: leftmost(self.left, point),
            right: rightmost(self.right, point),
            top: uppermost(self.top, point),
            bottom: lowest(self.bottom, point),
        }
    }
}

/// Returns the one of two points that is farther left.
fn leftmost(a: Point, b: Point) -> Point
    ensures first { result.x ≤ℤ a.x }
    ensures second { result.x ≤ℤ b.x }
    ensures either { IsEither a b result }
{
    if b.x() < a.x() { b } else { a }
}

/// Returns the one of two points that is farther right.
fn rightmost(a: Point, b: Point) -> Point
    ensures first { a.x ≤ℤ result.x }
    ensures second { b.x ≤ℤ result.x }
    ensures either { IsEither a b result }
{
    if a.x() < b.x() { b } else { a }
}

/// Returns the one of two points that is farther up.
fn uppermost(a: Point, b: Point) -> Point
    ensures first { a.y ≤ℤ result.y }
    ensures second { b.y ≤ℤ result.y }
    ensures either { IsEither a b result }
{
    if a.y() < b.y() { b } else { a }
}

/// Returns the one of two points that is farther down.
fn lowest(a: Point, b: Point) -> Point
    ensures first { result.y ≤ℤ a.y }
    ensures second { result.y ≤ℤ b.y }
    ensures either { IsEither a b result }
{
    if b.y() < a.y() { b } else { a }
}

/// Returns the frame of all marks, or `None` if there are none.
pub(crate) fn frame_of(marks: &[Mark]) -> Option<Frame>
    ensures { IsFrameOf marks.now result }
{
    let mut frame = Frame::of_point(marks.first()?.point);
    for mark in marks {
        frame = frame.widened(mark.point);
    }
    Some(frame)
}
