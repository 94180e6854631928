//! A caller of `hull_text`.
ghost use Rattle.std.specs.Prelude.{◌<◌, ◌^◌, ◌-◌, IfOk};

use heap::Heap;
use hull_book::{CheckResult, check};
use hull_text::{Source, TextFault, read_journal};

/// Returns whether a text is that of a legal journal, and which line of it is the first wrong one; a fault if it is no journal.
pub fn verdict_on<R: Source>(alloc: Heap, source: &mut R) -> Result<CheckResult, TextFault>
    requires { R.failed source.old < 2 ^ 64 - 1 }
{
    let journal = read_journal(alloc, source)?;
    Ok(check(alloc, &journal))
}
