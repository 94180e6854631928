ghost use Rattle.std.specs.Prelude.{◌≡◌, ◌≢◌};
ghost use Rattle.std.specs.IoError.{error_kind};
ghost use Rattle.hull_program.specs.Refusals.{refusal_of_options, refusal_status, text_status};

use super::words::OptionFault;
use hull_text::{FaultKind, TextFault};
use std::io;
use std::io::ErrorKind;
use thiserror::Error;

/// Why a program was refused: its text on standard error after the program's name, and its status.
#[derive(Clone, Copy, PartialEq, Eq, Debug, Error)]
pub enum Refusal {
    /// The words after the program's name are refused.
    #[error("usage")]
    Usage,
    /// The file cannot be opened.
    #[error("open")]
    Open,
    /// Memory was refused, but not while a text was read.
    #[error("memory")]
    Memory,
    /// The output failed.
    #[error("write")]
    Write,
    /// The input is no text of its kind, could not be read, or memory to read it was refused.
    #[error("line {}: fault {}", .0.line, .0.number)]
    Text(TextFault),
}

/// Returns the exit status of a program that ends with this fault of a text.
pub fn text_status(fault: &TextFault) -> u8
    ensures { result ≡ text_status fault.now }
{
    match fault.kind() {
        Some(FaultKind::Read) => 3,
        Some(FaultKind::NoMemory) => 4,
        Some(_) => 2,
        None => 2,
    }
}

impl Refusal {
    /// Returns the refusal for a system call that failed: `Memory` if memory was refused to it, and else `other`.
    pub fn of_system(error: &io::Error, other: Refusal) -> Refusal
        ensures memory { error_kind error.now ≡ ErrorKind.OutOfMemory → result ≡ Refusal.Memory }
        ensures other { error_kind error.now ≢ ErrorKind.OutOfMemory → result ≡ other }
    {
        if error.kind() == ErrorKind::OutOfMemory {
            Refusal::Memory
        } else {
            other
        }
    }

    /// Returns the exit status of a program that ends with this refusal.
    pub fn status(&self) -> u8
        ensures { result ≡ refusal_status self.now }
    {
        match self {
            Refusal::Usage => 2,
            Refusal::Open | Refusal::Write => 3,
            Refusal::Memory => 4,
            Refusal::Text(fault) => text_status(fault),
        }
    }
}

impl From<OptionFault> for Refusal {
    ghost from_gives = { λ x y. y ≡ refusal_of_options x };

    fn from(fault: OptionFault) -> Refusal {
        match fault {
            OptionFault::Usage => Refusal::Usage,
            OptionFault::Memory => Refusal::Memory,
        }
    }
}
