//! Laws of the definitions: each function has an empty body, and its contract is the law.
ghost use Rattle.hull_polygon.specs.Raycasts.{EntersThere, LeavesThere, NoneAfter, NoneBefore};
ghost use Rattle.hull_polygon.specs.Closest.{NoneCloser};
ghost use Rattle.hull_polygon.specs.Meetings.{NeverBoth};
ghost use Rattle.hull_polygon.specs.Nearest.{NoneNearerThanVertex, NoneNearerThanEdge};
ghost use Rattle.hull_polygon.specs.Relations.{NoneInsideDivided};

/// No two sets of points both intersect and are disjoint.
pub fn never_both()
    ensures { NeverBoth }
{}

/// No covered point is nearer than the nearest vertex, if a vertex is the nearest.
pub fn none_nearer_than_vertex()
    ensures { NoneNearerThanVertex }
{}

/// No covered point is nearer than the nearest edge, if an edge is the nearest: the quotient that
/// [`Polygon::nearest`](crate::Polygon::nearest) names is at most the squared distance.
pub fn none_nearer_than_edge()
    ensures { NoneNearerThanEdge }
{}

/// No points of two hulls are nearer to each other than the nearest points of the two; points with fractions as
/// coordinates are included. The quotient that [`Polygon::distance`](crate::Polygon::distance) names is at most their
/// squared distance.
pub fn none_closer()
    ensures { NoneCloser }
{}

/// If a line divides two hulls, no point inside the one is covered by the other; points with fractions as coordinates
/// are included. Hulls that touch share at most points of their boundaries.
pub fn none_inside_divided()
    ensures { NoneInsideDivided }
{}

/// No covered point of a path, points with fractions as coordinates included, comes before the one at the quotient that
/// [`Polygon::raycast`](crate::Polygon::raycast) returns.
pub fn none_before()
    ensures { NoneBefore }
{}

/// The point at the quotient that [`Polygon::raycast`](crate::Polygon::raycast) returns is covered.
pub fn enters_there()
    ensures { EntersThere }
{}

/// No covered point of a ray comes after the one that [`Polygon::raycast_exit`](crate::Polygon::raycast_exit) returns.
pub fn none_after()
    ensures { NoneAfter }
{}

/// The point that [`Polygon::raycast_exit`](crate::Polygon::raycast_exit) returns is covered.
pub fn leaves_there()
    ensures { LeavesThere }
{}
