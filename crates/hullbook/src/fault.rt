ghost use Rattle.std.specs.Prelude.{◌≡◌};
ghost use Rattle.hullbook.specs.Faults.{fault_of_after, fault_of_compact, fault_of_engine, fault_of_options};
ghost use Rattle.hullbook.specs.Faults.{fault_of_program, fault_of_refusal, fault_of_upgrade, fault_status, segment_status};
ghost use Rattle.hullbook.specs.Faults.{status_of};
ghost use Rattle.hullbook.specs.declared.fault.Failure.TheVariants as failure;

use crate::after::AfterFault;
use crate::run::RunFault;
use crate::segments::SegmentFault;
use hull_book::CompactRefusal;
use hull_program::{OptionFault, Refusal, text_status};
use hull_text::{CompactFault, TextFault, UpgradeFault};
use thiserror::Error;

/// The fault of a refused program: its text on standard error, and its status.
#[derive(Clone, Copy, PartialEq, Eq, Debug, Error)]
pub enum Fault {
    /// The words after the program's name are refused.
    #[error("hullbook: usage")]
    Usage,
    /// The file cannot be opened.
    #[error("hullbook: open")]
    Open,
    /// Memory was refused, but not while a text was read.
    #[error("hullbook: memory")]
    Memory,
    /// The output failed.
    #[error("hullbook: write")]
    Write,
    /// The input is no text of its kind, could not be read, or memory to read it was refused.
    #[error("hullbook: line {}: fault {}", .0.line, .0.number)]
    Text(TextFault),
}

impl Fault {
    /// Returns the exit status of a program that ends with this fault.
    pub fn status(&self) -> u8
        ensures { result ≡ fault_status self.now }
    {
        match self {
            Fault::Usage => 2,
            Fault::Open | Fault::Write => 3,
            Fault::Memory => 4,
            Fault::Text(fault) => text_status(fault),
        }
    }
}

impl From<Refusal> for Fault {
    ghost from_gives = { λ x y. y ≡ fault_of_program x };

    fn from(refusal: Refusal) -> Fault {
        match refusal {
            Refusal::Usage => Fault::Usage,
            Refusal::Open => Fault::Open,
            Refusal::Memory => Fault::Memory,
            Refusal::Write => Fault::Write,
            Refusal::Text(fault) => Fault::Text(fault),
        }
    }
}

impl From<OptionFault> for Fault {
    ghost from_gives = { λ x y. y ≡ fault_of_options x };

    fn from(fault: OptionFault) -> Fault {
        match fault {
            OptionFault::Usage => Fault::Usage,
            OptionFault::Memory => Fault::Memory,
        }
    }
}

/// The failure of a program: its text on standard error, and its status.
#[derive(Debug, Drop, Error)]
pub enum Failure {
    /// It was refused for this reason.
    #[error("{0}")]
    Refused(Fault),
    /// The journal to continue is no text of its kind, could not be read, or memory to read it was refused.
    #[error("hullbook: journal: line {}: fault {}", .0.line, .0.number)]
    Journal(TextFault),
    /// The journal's points are not counted, and the task continues only counted points.
    #[error("hullbook: points are not counted before version 3, and upgrade keeps that")]
    Rules,
    /// The journal is illegal; the first wrong line of its text.
    #[error("hullbook: illegal {0}")]
    Illegal(u64),
    /// A segment of a journal, which is at this path, was not judged.
    #[error("hullbook: {0}: {1}")]
    Segment(String, SegmentFault),
    /// The stated first number is not that of the journal, which is this one.
    #[error("hullbook: the journal's first number is {0}")]
    First(u64),
    /// The stated limit is not that of the journal, which is this one.
    #[error("hullbook: the journal's limit is {0}")]
    Limit(u32),
    /// The stated capacity is less than the number of the journal's lines, which is this one.
    #[error("hullbook: the journal has {0} lines")]
    Lines(u32),
}

/// Returns the exit status of a program that ends with this fault of a segment.
fn segment_status(fault: &SegmentFault) -> u8
    ensures { result ≡ segment_status fault.now }
{
    match fault {
        SegmentFault::Open => 3,
        SegmentFault::OpenMemory | SegmentFault::Memory => 4,
        SegmentFault::Text(fault) => text_status(fault),
    }
}

impl Failure {
    /// Returns the exit status of a program that ends with this failure.
    pub fn status(&self) -> u8
        ensures { result ≡ status_of self.now }
    {
        match self {
            Failure::Illegal(_) => 1,
            Failure::Rules | Failure::First(_) | Failure::Limit(_) | Failure::Lines(_) => 2,
            Failure::Refused(fault) => fault.status(),
            Failure::Journal(fault) => text_status(fault),
            Failure::Segment(_, fault) => segment_status(fault),
        }
    }
}

impl From<Fault> for Failure {
    ghost from_gives = { λ x y. y ≡ failure.Refused x };

    fn from(fault: Fault) -> Failure {
        Failure::Refused(fault)
    }
}

impl From<Refusal> for Failure {
    ghost from_gives = { λ x y. y ≡ failure.Refused (fault_of_program x) };

    fn from(refusal: Refusal) -> Failure {
        Failure::Refused(Fault::from(refusal))
    }
}

impl From<RunFault> for Failure {
    ghost from_gives = { λ x y. y ≡ fault_of_engine x };

    fn from(fault: RunFault) -> Failure {
        match fault {
            RunFault::Text(fault) => Failure::Refused(Fault::Text(fault)),
            RunFault::Memory => Failure::Refused(Fault::Memory),
            RunFault::Write => Failure::Refused(Fault::Write),
        }
    }
}

impl From<UpgradeFault> for Failure {
    ghost from_gives = { λ x y. y ≡ fault_of_upgrade x };

    fn from(fault: UpgradeFault) -> Failure {
        match fault {
            UpgradeFault::Text(fault) => Failure::Refused(Fault::Text(fault)),
            UpgradeFault::Write(_) => Failure::Refused(Fault::Write),
        }
    }
}

impl From<CompactRefusal> for Failure {
    ghost from_gives = { λ x y. y ≡ fault_of_refusal x };

    fn from(refusal: CompactRefusal) -> Failure {
        match refusal {
            CompactRefusal::Rules => Failure::Rules,
            CompactRefusal::Wrong(place) => Failure::Illegal(u64::from(place) + 2),
            CompactRefusal::NoMemory => Failure::Refused(Fault::Memory),
        }
    }
}

impl From<CompactFault> for Failure {
    ghost from_gives = { λ x y. y ≡ fault_of_compact x };

    fn from(fault: CompactFault) -> Failure {
        match fault {
            CompactFault::Text(fault) => Failure::Refused(Fault::Text(fault)),
            CompactFault::Refused(refusal) => Failure::from(refusal),
            CompactFault::Write(_) => Failure::Refused(Fault::Write),
        }
    }
}

impl From<AfterFault> for Failure {
    ghost from_gives = { λ x y. y ≡ fault_of_after x };

    fn from(fault: AfterFault) -> Failure {
        match fault {
            AfterFault::Script(fault) => Failure::Refused(Fault::Text(fault)),
            AfterFault::Journal(fault) => Failure::Journal(fault),
            AfterFault::Rules => Failure::Rules,
            AfterFault::First(first) => Failure::First(first),
            AfterFault::Limit(limit) => Failure::Limit(limit),
            AfterFault::Capacity(lines) => Failure::Lines(lines),
            AfterFault::Wrong(place) => Failure::Illegal(u64::from(place) + 2),
            AfterFault::Memory => Failure::Refused(Fault::Memory),
            AfterFault::Write => Failure::Refused(Fault::Write),
        }
    }
}
