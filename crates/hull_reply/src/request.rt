//! Requests by numbers: a kind, and a point or a direction.
ghost use Rattle.hull_reply.specs.Requests.{IsRequestAs, IsRequestOf};

use crate::code::Code;
use crate::coordinates::{direction_of, point_of};
use crate::kind::Kind;
use hull_set::Call;
use lattice::Point;

/// The request that a kind and two numbers describe.
#[derive(Clone, Copy, PartialEq, Eq, Debug)]
pub enum Request {
    /// A call that a journal can record.
    Call(Call),
    /// The question for the multiplicity of a point.
    Multiplicity(Point),
}

/// Returns the request of a kind.
fn request_as(kind: Kind, x: i64, y: i64) -> Result<Request, Code>
    ensures { IsRequestAs kind x y result }
{
    match kind {
        // written by tools/table.py: a case for each kind
        Kind::Add => Ok(Request::Call(Call::Add(point_of(x, y)?))),
        Kind::Remove => Ok(Request::Call(Call::Remove(point_of(x, y)?))),
        Kind::Place => Ok(Request::Call(Call::Place(point_of(x, y)?))),
        Kind::Tangents => Ok(Request::Call(Call::Tangents(point_of(x, y)?))),
        Kind::Extreme => Ok(Request::Call(Call::Extreme(direction_of(x, y)?))),
        Kind::Vertices => Ok(Request::Call(Call::Vertices)),
        Kind::Area => Ok(Request::Call(Call::Area)),
        Kind::Count => Ok(Request::Call(Call::Count)),
        Kind::Multiplicity => Ok(Request::Multiplicity(point_of(x, y)?)),
        // end of what tools/table.py writes
    }
}

/// Returns the request of these numbers. Fails with [`Code::UnknownKind`] if no kind has the number, else with the
/// error of [`point_of`] or [`direction_of`]. Kinds that need no point and no direction do not read x and y.
pub fn request_of(kind: u32, x: i64, y: i64) -> Result<Request, Code>
    ensures { IsRequestOf kind x y result }
{
    match Kind::of(kind) {
        Some(kind) => request_as(kind, x, y),
        None => Err(Code::UnknownKind),
    }
}
