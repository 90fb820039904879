// A bus log, and whether it is the beginning of a schedule of its table.
#![tactic(auto)]

mod follow;

pub use follow::{begin, entry_of, follow_line, is_named, start_shown};

// A line of a log.
#[derive(Clone, Copy)]
pub struct Line {
    pub start: u64,
    pub identifier: u64,
    pub kind: u64,
    // "Queueing".
    pub release: u64,
    pub length: u64,
}

// A line by the row of its frame.
#[derive(Clone, Copy)]
pub struct Entry {
    pub frame: usize,
    pub start: u64,
    pub release: u64,
    pub length: u64,
}

// What the lines so far say.
#[derive(Clone, Copy)]
pub struct Progress {
    // The last end: the tick from which the bus is free.
    pub free: u64,
    // For each group, at its number, whether it has a line, and then its start.
    // Two arrays, as what a line tells is defined on them (`starts_after`).
    pub seen: [bool; 17],
    pub starts: [u64; 17],
    // For each row the release of its next instance; before its group has a line, the earliest tick
    // at which its first instance may be released.
    pub due: [u64; 64],
}
