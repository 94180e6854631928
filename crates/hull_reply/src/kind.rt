ghost use Rattle.std.specs.Prelude.{◌≡◌, ◌≢◌, MatchOption};
ghost use Rattle.hull_reply.specs.Requests.{kind_number};

/// The kind of a request to a library for C. The headers name each by its number, which is the discriminant here.
#[derive(Clone, Copy, PartialEq, Eq, Debug)]
pub enum Kind {
    // written by tools/table.py: kinds
    /// Adds the point, or 1 to its multiplicity.
    Add = 1,
    /// Takes 1 from the multiplicity of the point.
    Remove = 2,
    /// The location of the point.
    Place = 3,
    /// The tangent points seen from the point.
    Tangents = 4,
    /// The first of the farthest points in the direction.
    Extreme = 5,
    /// How many vertices there are.
    Vertices = 6,
    /// Twice the area.
    Area = 7,
    /// How many different points there are.
    Count = 8,
    /// The multiplicity of the point, 0 if it is not there.
    Multiplicity = 9,
    // end of what tools/table.py writes
}

impl Kind {
    /// Returns the kind of this number, or `None` if there is no such kind.
    pub fn of(number: u32) -> Option<Kind>
        ensures { MatchOption result ((kind : Kind) → kind_number kind ≢ number) (λ kind. kind_number kind ≡ number) }
    {
        match number {
            // written by tools/table.py: numbers
            1 => Some(Kind::Add),
            2 => Some(Kind::Remove),
            3 => Some(Kind::Place),
            4 => Some(Kind::Tangents),
            5 => Some(Kind::Extreme),
            6 => Some(Kind::Vertices),
            7 => Some(Kind::Area),
            8 => Some(Kind::Count),
            9 => Some(Kind::Multiplicity),
            // end of what tools/table.py writes
            _ => None,
        }
    }
}
