ghost use Rattle.std.specs.Prelude.{◌≡◌, ◌≢◌, ◌≤◌, IfSome, None};
ghost use Rattle.hull_text.specs.declared.fault.FaultKind.{FaultKind};
ghost use Rattle.hull_text.specs.Fault.{fault_number, fault_at};

/// The fault of a text, or the reason why it could not be read.
#[derive(Clone, Copy, Debug, PartialEq, Eq)]
pub enum FaultKind {
    /// A line has not the form of one, a field is missing, or there is one too many.
    Form,
    /// A field that should be a number has another spelling, or is above the limit of its place.
    Number,
    /// A coordinate is out of range, or a direction is zero.
    Coordinate,
    /// A worker or seat is above 63.
    Worker,
    /// A call word or reply word is unknown.
    Word,
    /// A journal ends before its end line does.
    Truncated,
    /// The first line of a journal is no header of a known version.
    Header,
    /// The reader failed.
    Read,
    /// Memory was refused.
    NoMemory,
}

impl FaultKind {
    /// Returns the kind of fault that is reported by a number, or `None` if no fault has it.
    pub fn of(number: u8) -> Option<FaultKind>
        ensures some { IfSome result (λ kind. fault_number kind ≡ number) }
        ensures none { result ≡ None → (kind : FaultKind) → fault_number kind ≢ number }
    {
        match number {
            1 => Some(FaultKind::Form),
            2 => Some(FaultKind::Number),
            3 => Some(FaultKind::Coordinate),
            4 => Some(FaultKind::Worker),
            5 => Some(FaultKind::Word),
            6 => Some(FaultKind::Truncated),
            7 => Some(FaultKind::Header),
            8 => Some(FaultKind::Read),
            10 => Some(FaultKind::NoMemory),
            _ => None,
        }
    }

    /// Returns the number by which the fault is reported.
    pub fn number(self) -> u8
        ensures value { result ≡ fault_number self }
        ensures range { result ≤ 10 }
    {
        match self {
            FaultKind::Form => 1,
            FaultKind::Number => 2,
            FaultKind::Coordinate => 3,
            FaultKind::Worker => 4,
            FaultKind::Word => 5,
            FaultKind::Truncated => 6,
            FaultKind::Header => 7,
            FaultKind::Read => 8,
            FaultKind::NoMemory => 10,
        }
    }
}

/// Why a text was not read: the number of the fault (1 form, 2 number, 3 coordinate, 4 worker, 5 word, 6 truncated, 7
/// header, 8 the reader failed, 10 memory was refused), and its line, counted from 1.
#[derive(Clone, Copy, Debug, PartialEq, Eq)]
pub struct TextFault {
    pub number: u8,
    pub line: u32,
}

impl TextFault {
    /// Returns the kind of the fault, or `None` if no fault has the number.
    pub fn kind(self) -> Option<FaultKind>
        ensures some { IfSome result (λ kind. fault_number kind ≡ self.number) }
        ensures none { result ≡ None → (kind : FaultKind) → fault_number kind ≢ self.number }
    {
        FaultKind::of(self.number)
    }

    /// Makes the fault of this kind in this line.
    pub(crate) fn new(kind: FaultKind, line: u32) -> TextFault
        ensures { result ≡ fault_at line kind }
    {
        TextFault {
            number: kind.number(),
            line,
        }
    }
}
