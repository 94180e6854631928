ghost use Rattle.std.specs.Prelude.{◌≡◌, ◌⊎◌, IfErr};

use super::refusal::Refusal;
use std::io::{BufWriter, Printer};
use std::rt::Files;
use std::{fs, io};

/// How many bytes are gathered before they are written.
const WRITE_BLOCK: usize = 65536;

/// Opens the file at the path to read it.
///
/// # Errors
///
/// Fails with `Memory` if memory was refused to the system, and else with `Open`.
pub fn open_file<R: Files>(rt: &R, path: &str) -> Result<R::File, Refusal>
    ensures { IfErr result (λ refusal. (refusal ≡ Refusal.Memory) ⊎ (refusal ≡ Refusal.Open)) }
{
    fs::open(rt, path).map_err(|error| Refusal::of_system(&error, Refusal::Open))
}

/// Returns a writer to standard output that gathers a block.
///
/// # Errors
///
/// Fails with `Memory` if memory for the block was refused.
pub fn block_writer<R: Print + AllocGlobal>(rt: &R) -> Result<BufWriter<Printer<'_, R>>, Refusal>
    ensures { IfErr result (λ refusal. refusal ≡ Refusal.Memory) }
{
    BufWriter::with_capacity(rt.alloc(), WRITE_BLOCK, io::writer(rt)).map_err(|_| Refusal::Memory)
}
