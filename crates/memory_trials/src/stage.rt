use std::fmt;

/// The stage of a trial in which memory was refused.
#[derive(Clone, Copy, PartialEq, Eq, Debug)]
pub enum Stage {
    /// Before the tested call began.
    SetUp,
    /// In the tested call.
    Refused,
    /// In the second phase of a script, after a first one that ran completely.
    LaterPhase,
    /// In the first call of a run of phases.
    FirstAdd,
    /// In the second.
    SecondAdd,
    /// In the call for the vertices, to either list.
    Vertices,
    /// Nowhere that the trial needs.
    Whole,
}

impl fmt::Display for Stage {
    fn fmt<W: fmt::Write>(&self, f: &mut fmt::Formatter<W>) -> fmt::Result {
        f.write_str(match self {
            Stage::SetUp => "set-up",
            Stage::Refused => "refused",
            Stage::LaterPhase => "later phase",
            Stage::FirstAdd => "first add",
            Stage::SecondAdd => "second add",
            Stage::Vertices => "vertices",
            Stage::Whole => "whole",
        })
    }
}
