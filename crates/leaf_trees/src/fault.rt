//! Why points are refused.
ghost use Rattle.std.specs.Prelude.{◌≡◌};

use hull_set::NoMemory;
use std::alloc::AllocError;
use std::error::Error;
use std::fmt;

/// Why no set was loaded.
#[derive(Clone, Copy, PartialEq, Eq, Debug)]
pub enum LoadFault {
    /// There are more points than the set takes, or one of them more often than a point may be in a set.
    TooMany,
    /// Memory was refused.
    NoMemory,
}

impl fmt::Display for LoadFault {
    fn fmt<W: fmt::Write>(&self, f: &mut fmt::Formatter<W>) -> fmt::Result {
        match self {
            LoadFault::TooMany => f.write_str("too many points"),
            LoadFault::NoMemory => f.write_str("out of memory"),
        }
    }
}

impl Error for LoadFault {}

impl From<AllocError> for LoadFault {
    ghost use Rattle.leaf_trees.specs.declared.fault.LoadFault.{LoadFault};

    ghost from_gives = { λ _ fault. fault ≡ LoadFault.NoMemory };

    fn from(_refused: AllocError) -> LoadFault {
        LoadFault::NoMemory
    }
}

impl From<NoMemory> for LoadFault {
    ghost use Rattle.leaf_trees.specs.declared.fault.LoadFault.{LoadFault};

    ghost from_gives = { λ _ fault. fault ≡ LoadFault.NoMemory };

    fn from(_refused: NoMemory) -> LoadFault {
        LoadFault::NoMemory
    }
}
