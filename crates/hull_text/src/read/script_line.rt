ghost use Rattle.std.specs.Prelude.{◌≡◌, IfErr, IfOk};
ghost use Rattle.hull_text.specs.Fault.{IsLineFault};
ghost use Rattle.hull_text.specs.Field.{fields_of};
ghost use Rattle.hull_text.specs.Form.{has_form, has_form_after};
ghost use Rattle.hull_text.specs.ScriptLine.{script_line_of, served_at};
ghost use Rattle.hull_text.specs.ScriptValue.{SaysWorker};

use super::call::call_of;
use super::field::{next_field, seat_of};
use super::item::Item;
use crate::fault::FaultKind;
use crate::version::NEWEST;

/// Whether a line has the form of one.
#[tactic(auto, unfolding(crate::specs::Form::has_form))]
pub(crate) fn is_well_formed(line: &[u8]) -> bool
    ensures { result ≡ has_form line.now }
{
    let mut spaced = true;
    let mut rest = line;
    while let [b, after @ ..] = rest {
        if *b == b' ' {
            if spaced {
                return false;
            }
            spaced = true;
        } else if *b < 33 || *b > 126 {
            return false;
        } else {
            spaced = false;
        }
        rest = after;
    }
    !spaced
}

#[tactic(auto, unfolding(crate::specs::ScriptLine::served_at))]
fn served(line: &[u8]) -> Result<Option<Item>, FaultKind>
    ensures value { result ≡ served_at (fields_of line.now) }
    ensures line { IfErr result IsLineFault }
    ensures worker { IfOk result SaysWorker }
{
    let (worker, rest) = seat_of(Some(line))?;
    match call_of(NEWEST, rest) {
        Ok((call, rest)) => {
            if next_field(rest).is_some() {
                return Err(FaultKind::Form);
            }
            Ok(Some(Some((worker, call))))
        }
        Err(fault) => Err(fault),
    }
}

/// Reads the item of a line of a script. Fails with its first fault; an empty line and a comment have no item.
#[tactic(auto, unfolding(crate::specs::ScriptLine::script_line_of))]
pub(crate) fn script_line(line: &[u8]) -> Result<Option<Item>, FaultKind>
    ensures value { result ≡ script_line_of line.now }
    ensures line { IfErr result IsLineFault }
    ensures worker { IfOk result SaysWorker }
{
    match line {
        [] | [b'#', ..] => Ok(None),
        _ => {
            if !is_well_formed(line) {
                Err(FaultKind::Form)
            } else if line == b"join".as_slice() {
                Ok(Some(None))
            } else {
                served(line)
            }
        }
    }
}
