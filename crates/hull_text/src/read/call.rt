ghost use Rattle.std.specs.Prelude.{◌≡◌, Ok};
ghost use Rattle.hull_text.specs.Words.{call_word_of};
ghost use Rattle.hull_text.specs.Field.{Gives, fields_left};
ghost use Rattle.hull_text.specs.Call.{call_after, call_at};

use super::field::{Rest, direction_of, next_field, point_of};
use crate::fault::FaultKind;
use crate::version::Version;
use crate::words::CallWord;
use hull_set::Call;

/// Reads the call with this word.
#[inline(always)]
#[tactic(auto, unfolding(crate::specs::Call::call_after))]
fn call_following(
    version: Version,
    word: CallWord,
    rest: Rest<'_>,
) -> Result<(Call, Rest<'_>), FaultKind>
    ensures { Gives (λ x. (x.0, fields_left x.1)) result (call_after version (Some word) (fields_left rest.entry)) }
{
    match word {
        // written by tools/table.py: a case for each call word
        CallWord::Add => match point_of(version, rest) {
            Ok((point, rest)) => Ok((Call::Add(point), rest)),
            Err(fault) => Err(fault),
        },
        CallWord::Remove => match point_of(version, rest) {
            Ok((point, rest)) => Ok((Call::Remove(point), rest)),
            Err(fault) => Err(fault),
        },
        CallWord::Extreme => match direction_of(version, rest) {
            Ok((direction, rest)) => Ok((Call::Extreme(direction), rest)),
            Err(fault) => Err(fault),
        },
        CallWord::Place => match point_of(version, rest) {
            Ok((point, rest)) => Ok((Call::Place(point), rest)),
            Err(fault) => Err(fault),
        },
        CallWord::Tangents => match point_of(version, rest) {
            Ok((point, rest)) => Ok((Call::Tangents(point), rest)),
            Err(fault) => Err(fault),
        },
        CallWord::Vertices => Ok((Call::Vertices, rest)),
        CallWord::Area => Ok((Call::Area, rest)),
        CallWord::Count => Ok((Call::Count, rest)),
        // end of what tools/table.py writes
    }
}

/// Reads the call that the next fields spell.
#[inline(always)]
#[tactic(auto, unfolding(crate::specs::Call::call_at, crate::specs::Call::call_after))]
pub(crate) fn call_of(version: Version, rest: Rest<'_>) -> Result<(Call, Rest<'_>), FaultKind>
    ensures { Gives (λ x. (x.0, fields_left x.1)) result (call_at version (fields_left rest.entry)) }
{
    let Some((field, rest)) = next_field(rest) else {
        return Err(FaultKind::Form);
    };
    let Some(word) = CallWord::of(field) else {
        return Err(FaultKind::Word);
    };
    call_following(version, word, rest)
}
