//! Vertices in a caller's array.
ghost use Rattle.std.specs.Prelude.{◌≡◌, ◌≤◌, ◌++◌, length, drop};
ghost use Rattle.hull_reply.specs.Vertices.{EncodesVertices};

use crate::code::Code;
use crate::reply::HullReply;
use lattice::Point;
use std::marker::Model;

/// A point with public coordinates.
#[repr(C)]
#[derive(Clone, Copy)]
pub struct HullPoint {
    /// The first coordinate.
    pub x: i64,
    /// The second coordinate.
    pub y: i64,
}

impl Model for HullPoint {
    ghost use Rattle.lattice.specs.Plane.{Pair};

    ghost Value = { Pair };

    ghost view = { λ p. record { x = p.x; y = p.y } };

    ghost inverse = { λ p. record { x = p.x; y = p.y } };
}

impl HullPoint {
    /// Returns the point with public coordinates.
    pub fn of(point: Point) -> HullPoint
        ensures { result ≡ point }
    {
        HullPoint {
            x: point.x(),
            y: point.y(),
        }
    }
}

/// Writes the points to the front of the array.
fn write_points(points: &[Point], out: &mut [HullPoint])
    requires { length points.now ≤ length out.now }
    ensures { out.new ≡ points.now ++ drop (length points.now) out.old }
{
    for i in 0..points.len() {
        out[i] = HullPoint::of(points[i]);
    }
}

/// Writes the vertices to the front of the array if it has the capacity for all of them, and returns their number
/// either way. If it is too small, the array is unchanged.
pub fn put_vertices(vertices: &[Point], out: &mut [HullPoint]) -> HullReply
    ensures { EncodesVertices vertices.now out.old out.new result }
{
    let number = vertices.len();
    if number > out.len() {
        return HullReply::numbered(Code::TooSmall, number as u64);
    }
    write_points(vertices, out);
    HullReply::numbered(Code::Vertices, number as u64)
}
