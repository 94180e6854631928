use lattice::{Direction, Point};

/// A call on a set of points: a change or a question.
#[derive(Clone, Copy, PartialEq, Eq, Debug)]
pub enum Call {
    // written by tools/table.py: calls
    /// Adds the point, or 1 to its multiplicity.
    Add(Point),
    /// Takes 1 from the multiplicity of the point.
    Remove(Point),
    /// The first of the farthest points in the direction.
    Extreme(Direction),
    /// The location of the point.
    Place(Point),
    /// The tangent points seen from the point.
    Tangents(Point),
    /// The vertices of the hull.
    Vertices,
    /// Twice the area.
    Area,
    /// How many different points there are.
    Count,
    // end of what tools/table.py writes
}
