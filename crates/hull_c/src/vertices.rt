//! The vertices of a set, in an array of the caller's.
ghost use Rattle.hull_c.specs.Calls.{AreVertices};

use super::hull::Hull;
use hull_reply::{Code, HullPoint, HullReply, put_vertices};
use hull_set::HullSet;

/// Writes the vertices of the set to the front of the array, if all of them fit.
pub(crate) fn vertices(hull: &mut Hull, out: &mut [HullPoint]) -> HullReply
    ensures { AreVertices hull.old hull.new out.old out.new result }
{
    if let Some(vertices) = hull.set.known_vertices() {
        return put_vertices(vertices, out);
    }
    let Ok(vertices) = hull.set.vertices() else {
        return HullReply::bare(Code::NoMemory);
    };
    put_vertices(&vertices, out)
}
