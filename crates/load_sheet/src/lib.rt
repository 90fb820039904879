// The load sheet of a table: each node's bus load, and the greatest of them.
#![tactic(auto)]

mod loads;
mod sheet;

pub use sheet::{write, write_input};

// The characters of the longest sheet.
pub const LONGEST: usize = 494;

// A node's load: its work × 10000, divided by the hyperperiod of its group.
#[derive(Clone, Copy)]
pub struct Load {
    pub quotient: u64,
    pub remainder: u64,
    pub divisor: u64,
}
