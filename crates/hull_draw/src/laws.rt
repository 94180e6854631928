//! The numbers of the limits by which labels are written.
ghost use Rattle.std.specs.Prelude.{◌≡◌};

use super::labels::{LABEL_HEIGHT, LABEL_WIDTH};
use super::marks::LABEL_LIMIT;

/// How many points a set may have for labels to be written, and the least distance of a label from the last one, to a
/// side of it or above or below it, in points of the screen.
pub fn label_limits_are_stated()
    ensures points { LABEL_LIMIT ≡ 400 }
    ensures width { LABEL_WIDTH ≡ 18 }
    ensures height { LABEL_HEIGHT ≡ 13 }
{}
