//! The reply to a caller in C: the number of a code, and the values that belong to it.
ghost use Rattle.std.specs.Prelude.{◌≢◌, ◌≡◌};
ghost use Rattle.lattice.specs.Plane.{Pair};
ghost use Rattle.hull_reply.specs.Encoded.{AreNumbers, ArePoints, IsBare, IsNumber, IsPoint, IsWide, Encodes};

use crate::code::Code;
use hull_set::{Place, Reply};
use lattice::Point;

/// The reply to a call: the number of its code, and the values that belong to that code; all other fields are 0.
#[repr(C)]
#[derive(Clone, Copy)]
pub struct HullReply {
    /// The number of the code.
    pub code: u32,
    /// The first coordinate of a point.
    pub x: i64,
    /// The second coordinate of the point.
    pub y: i64,
    /// The first coordinate of a second point.
    pub other_x: i64,
    /// The second coordinate of the second point.
    pub other_y: i64,
    /// A number, or the lower 64 bits of one.
    pub number: u64,
    /// The upper 64 bits of a number.
    pub high: u64,
}

impl HullReply {
    /// Returns a code without values.
    pub fn bare(code: Code) -> HullReply
        ensures { IsBare code result }
    {
        HullReply {
            code: code.number(),
            x: 0,
            y: 0,
            other_x: 0,
            other_y: 0,
            number: 0,
            high: 0,
        }
    }

    /// Returns a code with a number.
    pub fn numbered(code: Code, number: u64) -> HullReply
        ensures { IsNumber code number result }
    {
        let mut reply = HullReply::bare(code);
        reply.number = number;
        reply
    }

    /// Returns a code with two numbers.
    pub fn with_numbers(code: Code, number: u64, high: u64) -> HullReply
        ensures { AreNumbers code number high result }
    {
        let mut reply = HullReply::numbered(code, number);
        reply.high = high;
        reply
    }

    /// Returns a code with a point.
    pub fn with_point(code: Code, point: Point) -> HullReply
        ensures { IsPoint code point result }
    {
        let mut reply = HullReply::bare(code);
        reply.x = point.x();
        reply.y = point.y();
        reply
    }

    /// Returns a code with two points.
    pub fn with_points(code: Code, point: Point, other: Point) -> HullReply
        ensures { ArePoints code point other result }
    {
        let mut reply = HullReply::with_point(code, point);
        reply.other_x = other.x();
        reply.other_y = other.y();
        reply
    }

    /// Returns a number in two words.
    pub fn wide(number: u128) -> HullReply
        ensures { IsWide number result }
    {
        let mut reply = HullReply::bare(Code::Number);
        reply.number = (number % (1 << 64)) as u64;
        reply.high = (number / (1 << 64)) as u64;
        reply
    }
}

fn code_of(place: Place) -> Code
    ensures { (r : HullReply) → IsBare result r → Encodes r (Reply.Lies place) }
{
    match place {
        Place::Inside => Code::Inside,
        Place::On => Code::On,
        Place::Outside => Code::Outside,
    }
}

/// Returns the reply of a set that counts its points, in numbers.
pub fn encoded(reply: Reply) -> HullReply
    requires { reply ≢ Reply.Already }
    ensures { Encodes result reply }
{
    match reply {
        // written by tools/table.py: a case for each reply
        Reply::Added => HullReply::bare(Code::Added),
        Reply::Already => unreachable!(),
        Reply::Again(multiplicity) => HullReply::numbered(Code::Again, u64::from(multiplicity)),
        Reply::TooMany => HullReply::bare(Code::TooMany),
        Reply::NoMemory => HullReply::bare(Code::NoMemory),
        Reply::Removed => HullReply::bare(Code::Removed),
        Reply::Left(multiplicity) => HullReply::numbered(Code::Left, u64::from(multiplicity)),
        Reply::Absent => HullReply::bare(Code::Absent),
        Reply::Farthest(point) => HullReply::with_point(Code::Point, point),
        Reply::Empty => HullReply::bare(Code::Empty),
        Reply::Lies(place) => HullReply::bare(code_of(place)),
        Reply::TangentPoints(left, right) => HullReply::with_points(Code::Tangents, left, right),
        Reply::NoTangent => HullReply::bare(Code::NoTangent),
        Reply::VertexList(all) => HullReply::numbered(Code::Vertices, all.as_slice().len() as u64),
        Reply::DoubledArea(area) => HullReply::wide(area),
        Reply::PointCount(count) => HullReply::numbered(Code::Number, u64::from(count)),
        // end of what tools/table.py writes
    }
}
