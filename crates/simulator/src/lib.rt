// A log written by the bus rule, from a seed.
#![tactic(auto)]

ghost use Rattle.std.specs.Prelude.{◌≡◌};
ghost use Rattle.simulator.specs.declared.Refusal.TheVariants.{Table};
ghost use Rattle.simulator.specs.Simulate.{refusal_returns};

mod drawing;
mod operation;
mod text;
mod turn;

pub use operation::{simulate, simulate_files, simulate_input};

// The most lines of a log, and the bytes of the longest.
pub const MOST_LINES: u64 = 1600;

pub const LONGEST: usize = 64_000;

// The state of a simulation.
#[derive(Clone, Copy)]
pub struct Engine {
    // The number drawn last.
    pub drawn: u32,
    // The tick from which the bus is free.
    pub free: u64,
    // For each row the release of its next instance.
    pub due: [u64; 64],
}

// The starts drawn so far, for each group at its number, and the number drawn last.
#[derive(Clone, Copy)]
pub struct Starts {
    pub drawn: u32,
    pub starts: [u64; 17],
}

// Why no log is written.
#[derive(Clone, Copy)]
pub enum Refusal {
    // Lengths, table or area are turned back.
    Table(table_checks::Refusal),
    // The seed is 0.
    ZeroSeed,
    // The lines wanted are outside 1..1600.
    LineCount,
}

impl Refusal {
    // Its number, and its place, which is 0 where it has none.
    pub fn number(self) -> u32
        ensures { result ≡ (refusal_returns self).number }
    {
        match self {
            Refusal::Table(refusal) => table_checks::number(refusal.cause),
            Refusal::ZeroSeed => 21,
            Refusal::LineCount => 22,
        }
    }

    pub fn place(self) -> u32
        ensures { result ≡ (refusal_returns self).place }
    {
        match self {
            Refusal::Table(refusal) => refusal.place,
            Refusal::ZeroSeed => 0,
            Refusal::LineCount => 0,
        }
    }
}

impl From<table_checks::Refusal> for Refusal {
    ghost from_gives = { λ e r. r ≡ Table e };

    fn from(e: table_checks::Refusal) -> Refusal {
        Refusal::Table(e)
    }
}
