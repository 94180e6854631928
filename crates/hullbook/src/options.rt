//! The tasks that the words after the program's name request.

mod parse;

pub use parse::{options, request};

/// The numbers of a run.
#[derive(Clone, Copy, PartialEq, Eq, Debug)]
pub struct Options {
    /// How many lines the journal may have: 1 to 16777216.
    pub capacity: u32,
    /// How many points the set may have: 1 to 1048576.
    pub limit: u32,
    /// The number of the first line.
    pub first: u64,
    /// Whether the journal is written in place of the report.
    pub journal: bool,
}

/// The stated numbers of a run: `None` for a number that is not stated.
#[derive(Clone, Copy, PartialEq, Eq, Debug)]
pub struct Stated {
    /// How many lines the journal may have: 1 to 16777216.
    pub capacity: Option<u32>,
    /// How many points the set may have: 1 to 1048576.
    pub limit: Option<u32>,
    /// The number of the first line.
    pub first: Option<u64>,
    /// Whether the journal is written in place of the report.
    pub journal: bool,
    /// Whether the set is a tree over buckets, which keeps the bridges that a change cannot alter.
    pub bucketed: bool,
}

/// The task of the program for one file.
#[derive(Debug, Drop)]
pub enum Task {
    /// To run the script at this path.
    Run(String, Options),
    /// To check the journal at this path.
    Check(String),
    /// To write the journal at this path in the newest version that has its rules.
    Upgrade(String),
}

/// The task that the words request of the program.
#[derive(Debug, Drop)]
pub enum Request {
    /// One of the tasks.
    Task(Task),
    /// To run the script at this path on a tree over buckets, which keeps the bridges that a change cannot alter: the same
    /// replies, sooner.
    RunBucketed(String, Options),
    /// To run the script at the first path on the book that continues the journal at the second.
    RunAfter(String, String, Stated),
    /// To check the journal at this path, and to explain why a line is wrong.
    Explain(String),
    /// To check the segments of one journal at these paths, in this order.
    CheckSegments(Vec<String>),
    /// To write a short journal that leaves the same points as the journal at this path.
    Compact(String),
}
