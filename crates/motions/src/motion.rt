//! A translation or a rotation, and a point after it.
ghost use Rattle.std.specs.Prelude.{◌≡◌, ◌+ℤ◌, ◌-ℤ◌, ◌*ℤ◌, neg_ℤ, MatchOption};
ghost use Rattle.lattice.specs.Plane.{IsCoordinate, IsInRange};

use lattice::{COORDINATE_LIMIT, Direction, Point, sum_of_products};

/// How points are moved.
#[derive(Clone, Copy)]
pub enum Motion {
    /// By a vector.
    Translation { dx: i64, dy: i64 },
    /// About the origin by the angle of a vector, and scaled by its length.
    Rotation(Direction),
}

/// Returns the number if it is a coordinate.
fn coordinate_of(number: i128) -> Option<i64>
    ensures { MatchOption result (¬ IsCoordinate number) (λ coordinate. (coordinate ≡ number) × IsCoordinate number) }
{
    let limit = COORDINATE_LIMIT as i128;
    if -limit <= number && number <= limit {
        Some(number as i64)
    } else {
        None
    }
}

/// Returns the point with these coordinates if they are in range.
fn point_of(x: i128, y: i128) -> Option<Point>
    ensures { MatchOption result (¬ IsInRange (record { x = x; y = y }))
        (λ p. (p ≡ record { x = x; y = y }) × IsInRange (record { x = x; y = y })) }
{
    Point::new(coordinate_of(x)?, coordinate_of(y)?).ok()
}

/// Returns the sum of a coordinate and any number.
fn sum(coordinate: i64, number: i64) -> i128
    ensures { result ≡ coordinate +ℤ number }
{
    coordinate as i128 + number as i128
}

/// Returns the negative of a coordinate.
fn negative(coordinate: i64) -> i64
    requires { IsCoordinate coordinate }
    ensures value { result ≡ neg_ℤ coordinate }
    ensures range { IsCoordinate result }
{
    -coordinate
}

/// Returns the first coordinate of `p` after a rotation.
fn rotated_x(d: Direction, p: Point) -> i128
    ensures { result ≡ d.x *ℤ p.x -ℤ d.y *ℤ p.y }
{
    sum_of_products(d.x(), p.x(), d.y(), negative(p.y()))
}

/// Returns the second coordinate of `p` after a rotation.
fn rotated_y(d: Direction, p: Point) -> i128
    ensures { result ≡ d.y *ℤ p.x +ℤ d.x *ℤ p.y }
{
    sum_of_products(d.y(), p.x(), d.x(), p.y())
}

impl Motion {
    ghost use Rattle.motions.specs.Motions.{moved};

    /// Returns the point that `p` is moved to, or `None` if it is out of range.
    pub fn apply(&self, p: Point) -> Option<Point>
        ensures { MatchOption result (¬ IsInRange (moved self.now p)) (λ q. (q ≡ moved self.now p) × IsInRange (moved self.now p)) }
    {
        match *self {
            Motion::Translation { dx, dy } => point_of(sum(p.x(), dx), sum(p.y(), dy)),
            Motion::Rotation(d) => point_of(rotated_x(d, p), rotated_y(d, p)),
        }
    }

    /// Returns the coordinates of the point that `p` is moved to, which is in range.
    pub fn coordinates_in_range(&self, p: Point) -> (i64, i64)
        requires { IsInRange (moved self.now p) }
        ensures { (result.0 ≡ (moved self.now p).x) × (result.1 ≡ (moved self.now p).y) }
    {
        match *self {
            Motion::Translation { dx, dy } => (p.x() + dx, p.y() + dy),
            Motion::Rotation(d) => (rotated_x(d, p) as i64, rotated_y(d, p) as i64),
        }
    }

    /// Returns the point that `p` is moved to, which is in range.
    pub fn apply_in_range(&self, p: Point) -> Point
        requires { IsInRange (moved self.now p) }
        ensures { result ≡ moved self.now p }
    {
        let (x, y) = self.coordinates_in_range(p);
        match Point::new(x, y) {
            Ok(q) => q,
            Err(_) => unreachable!(),
        }
    }
}
