//! Two arrays of vertices, and strips round one.
ghost use Rattle.std.specs.Prelude.{◌≡◌, Some};
ghost use Rattle.hull_geometry.specs.Positions.{origin};
ghost use Rattle.hull_polygon.specs.Polygons.{IsShortPolygon};
ghost use Rattle.hull_polygon.specs.declared.witnesses.Witness.TheVariants as witness;
ghost use Rattle.hull_c.specs.Pairs.{IsDistanceEncoded, IsShown, IsStripEncoded, IsWitnessEncoded};
ghost use Rattle.hull_c.specs.Pairs.{EncodesContains, EncodesContainsInside, EncodesDistance, EncodesLeastWidth, EncodesIntersects};
ghost use Rattle.hull_c.specs.Pairs.{EncodesRelation, EncodesWhetherWithin, EncodesWitness, relation_number};

use hull_polygon::{Distance, Length, Meeting, Polygon, Relation, Separation, Strip, Witness};
use hull_reply::{Code, HullPoint, HullReply};
use lattice::Point;

/// A witness that two convex polygons intersect, or that they are disjoint: the number of a code, and up to four
/// points, as the header says at its name; all else is 0.
#[repr(C)]
#[derive(Clone, Copy)]
pub struct HullWitness {
    /// The number.
    pub code: u32,
    /// A point.
    pub a: HullPoint,
    /// A second point, or a direction.
    pub b: HullPoint,
    /// A third point.
    pub c: HullPoint,
    /// A fourth point.
    pub d: HullPoint,
}

/// Makes a reply with only a code.
fn bare(code: Code) -> HullWitness
    ensures { IsShown code origin origin origin origin result }
{
    let none = HullPoint { x: 0, y: 0 };
    HullWitness {
        code: code.number(),
        a: none,
        b: none,
        c: none,
        d: none,
    }
}

/// Makes a reply with a code and a point.
fn at(code: Code, p: Point) -> HullWitness
    ensures { IsShown code p origin origin origin result }
{
    HullWitness {
        a: HullPoint::of(p),
        ..bare(code)
    }
}

/// Makes the reply for two segments that cross.
fn crossing(a: Point, b: Point, c: Point, d: Point) -> HullWitness
    ensures { IsShown Code.Crossing a b c d result }
{
    HullWitness {
        b: HullPoint::of(b),
        c: HullPoint::of(c),
        d: HullPoint::of(d),
        ..at(Code::Crossing, a)
    }
}

/// Makes the reply for an intersection of two convex polygons.
fn met(meeting: Meeting) -> HullWitness
    ensures { IsWitnessEncoded (Some (witness.Intersects meeting)) result }
{
    match meeting {
        Meeting::OfOther(t) => at(Code::Covered, t),
        Meeting::OfThis(s) => at(Code::Within, s),
        Meeting::Crossing(a, b, c, d) => crossing(a, b, c, d),
    }
}

/// Makes the reply for a separating direction.
fn separated(found: Separation) -> HullWitness
    ensures { IsWitnessEncoded (Some (witness.Disjoint found)) result }
{
    let direction = HullPoint {
        x: found.direction.x(),
        y: found.direction.y(),
    };
    HullWitness {
        b: direction,
        ..at(Code::Disjoint, found.farthest)
    }
}

/// Makes the reply for a witness.
fn shown(found: Witness) -> HullWitness
    ensures { IsWitnessEncoded (Some found) result }
{
    match found {
        Witness::Intersects(meeting) => met(meeting),
        Witness::Disjoint(separation) => separated(separation),
    }
}

/// Makes the reply for a witness, if there is one.
fn shown_of(found: Option<Witness>) -> HullWitness
    ensures { IsWitnessEncoded found result }
{
    match found {
        None => bare(Code::Empty),
        Some(witness) => shown(witness),
    }
}

/// Finds a witness of the relation of two convex polygons.
pub(crate) fn witness(vertices: &[Point], others: &[Point]) -> HullWitness
    requires this { IsShortPolygon vertices.now }
    requires that { IsShortPolygon others.now }
    ensures { EncodesWitness vertices.now others.now result }
{
    shown_of(Polygon::of_vertices(vertices).witness(&Polygon::of_vertices(others)))
}

/// Whether two convex polygons intersect.
pub(crate) fn intersects(vertices: &[Point], others: &[Point]) -> HullReply
    requires this { IsShortPolygon vertices.now }
    requires that { IsShortPolygon others.now }
    ensures { EncodesIntersects vertices.now others.now result }
{
    let intersects = Polygon::of_vertices(vertices).intersects(&Polygon::of_vertices(others));
    HullReply::numbered(Code::Number, u64::from(intersects))
}

/// Whether the first convex polygon contains the second.
pub(crate) fn contains(vertices: &[Point], others: &[Point]) -> HullReply
    requires this { IsShortPolygon vertices.now }
    requires that { IsShortPolygon others.now }
    ensures { EncodesContains vertices.now others.now result }
{
    let holds = Polygon::of_vertices(vertices).contains(&Polygon::of_vertices(others));
    HullReply::numbered(Code::Number, u64::from(holds))
}

/// Returns the header's number for the relation of two convex polygons.
pub(crate) fn number_of(relation: Relation) -> u64
    ensures { result ≡ relation_number relation }
{
    match relation {
        // written by tools/table.py: relations
        Relation::Disjoint => 0,
        Relation::Touching => 1,
        Relation::Overlapping => 2,
        Relation::Within => 3,
        Relation::Covers => 4,
        Relation::Equal => 5,
        // end of what tools/table.py writes
    }
}

/// Returns the relation of the first convex polygon to the second.
pub(crate) fn relation(vertices: &[Point], others: &[Point]) -> HullReply
    requires this { IsShortPolygon vertices.now }
    requires that { IsShortPolygon others.now }
    ensures { EncodesRelation vertices.now others.now result }
{
    let found = Polygon::of_vertices(vertices).relation(&Polygon::of_vertices(others));
    HullReply::numbered(Code::Number, number_of(found))
}

/// Whether all of the second convex polygon is inside the first.
pub(crate) fn contains_inside(vertices: &[Point], others: &[Point]) -> HullReply
    requires this { IsShortPolygon vertices.now }
    requires that { IsShortPolygon others.now }
    ensures { EncodesContainsInside vertices.now others.now result }
{
    let holds = Polygon::of_vertices(vertices).contains_inside(&Polygon::of_vertices(others));
    HullReply::numbered(Code::Number, u64::from(holds))
}

/// Whether the distance of two convex polygons is at most a length.
pub(crate) fn is_within_distance(vertices: &[Point], others: &[Point], length: Length) -> HullReply
    requires this { IsShortPolygon vertices.now }
    requires that { IsShortPolygon others.now }
    ensures { EncodesWhetherWithin vertices.now others.now length result }
{
    let is_within_distance = Polygon::of_vertices(vertices).is_within_distance(
        &Polygon::of_vertices(others),
        length,
    );
    HullReply::numbered(Code::Number, u64::from(is_within_distance))
}

/// Makes a reply with a code and two points.
fn with_two(code: Code, a: Point, b: Point) -> HullWitness
    ensures { IsShown code a b origin origin result }
{
    HullWitness {
        b: HullPoint::of(b),
        ..at(code, a)
    }
}

/// Makes a reply with a code and three points.
fn with_three(code: Code, a: Point, b: Point, c: Point) -> HullWitness
    ensures { IsShown code a b c origin result }
{
    HullWitness {
        c: HullPoint::of(c),
        ..with_two(code, a, b)
    }
}

/// Makes the reply for the strip of an edge.
fn strip(found: Strip) -> HullWitness
    ensures { IsStripEncoded (Some found) result }
{
    with_three(Code::Edge, found.from, found.to, found.farthest)
}

/// Makes the reply for a strip, if there is one.
fn strip_of(found: Option<Strip>) -> HullWitness
    ensures { IsStripEncoded found result }
{
    match found {
        None => bare(Code::Empty),
        Some(thinnest) => strip(thinnest),
    }
}

/// Finds the least width of the vertices.
pub(crate) fn least_width(vertices: &[Point]) -> HullWitness
    requires { IsShortPolygon vertices.now }
    ensures { EncodesLeastWidth vertices.now result }
{
    strip_of(Polygon::of_vertices(vertices).least_width())
}

/// Makes the reply for where two convex polygons are nearest to one another.
fn closest(found: Distance) -> HullWitness
    ensures { IsDistanceEncoded (Some found) result }
{
    match found {
        Distance::Zero => bare(Code::Intersecting),
        Distance::Vertices(c, d) => with_two(Code::Points, c, d),
        Distance::VertexAndEdge(c, a, b) => with_three(Code::Vertex, c, a, b),
        Distance::EdgeAndVertex(a, b, d) => with_three(Code::Edge, a, b, d),
    }
}

/// Makes the reply for where two convex polygons are nearest to one another, if both have vertices.
fn closest_of(found: Option<Distance>) -> HullWitness
    ensures { IsDistanceEncoded found result }
{
    match found {
        None => bare(Code::Empty),
        Some(distance) => closest(distance),
    }
}

/// Returns the distance of two convex polygons.
pub(crate) fn distance(vertices: &[Point], others: &[Point]) -> HullWitness
    requires this { IsShortPolygon vertices.now }
    requires that { IsShortPolygon others.now }
    ensures { EncodesDistance vertices.now others.now result }
{
    closest_of(Polygon::of_vertices(vertices).distance(&Polygon::of_vertices(others)))
}
