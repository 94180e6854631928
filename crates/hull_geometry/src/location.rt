//! The location of a point relative to a hull.
ghost use Rattle.std.specs.Prelude.{pos, ◌≤ℤ◌};
ghost use Rattle.hull_geometry.specs.Locations.{IsLocationBy, ReturnsChains};

use lattice::Side;

/// The location of a point relative to a hull.
#[derive(Clone, Copy)]
pub enum Location {
    /// Outside, before all points.
    Before,
    /// Outside, after all points.
    After,
    /// Outside, below a lower edge.
    Below,
    /// Outside, above an upper edge.
    Above,
    /// On the boundary.
    Touching,
    /// Inside.
    Within,
}

impl Location {
    /// Returns the chains that the left and the right tangent from there touch, or `None` if the points cover it.
    pub fn tangent_chains(self) -> Option<(Side, Side)>
        ensures { ReturnsChains self result }
    {
        match self {
            Location::Before => Some((Side::Upper, Side::Lower)),
            Location::After => Some((Side::Lower, Side::Upper)),
            Location::Below => Some((Side::Lower, Side::Lower)),
            Location::Above => Some((Side::Upper, Side::Upper)),
            Location::Touching => None,
            Location::Within => None,
        }
    }
}

/// Returns the location of a point by its sides of two edges: the lower edge at the point has it on its side `lower`,
/// and the point is not outside of this edge; the upper edge has it on its side `upper`. Each side is positive if the
/// point lies on the inner side of the edge.
pub fn location_by(lower: i128, upper: i128) -> Location
    requires { pos 0 ≤ℤ lower }
    ensures { IsLocationBy lower upper result }
{
    if upper < 0 {
        Location::Above
    } else if lower > 0 && upper > 0 {
        Location::Within
    } else {
        Location::Touching
    }
}
