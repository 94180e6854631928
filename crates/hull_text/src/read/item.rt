ghost use Rattle.std.specs.Prelude.{◌≡◌, ◌++◌, ◌∷◌, []};

use hull_set::Call;
use std::alloc::AllocError;

/// The item of a line of a script: a worker and its call, or `None` if the phase ends and another begins.
pub(crate) type Item = Option<(u8, Call)>;
