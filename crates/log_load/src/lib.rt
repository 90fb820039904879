// The busiest stretch of a log, and the sheet of its rows. Operations take any input, and check lengths, table and log themselves.
#![tactic(auto)]

mod files;
mod lines;
mod operation;
mod sheet;
mod stretch;

ghost use Rattle.std.specs.Prelude.{◌≡◌};
ghost use Rattle.log_check.specs.Check.{lines_of};
ghost use Rattle.log_load.specs.Refusal.{number_of, of_log};
ghost use Rattle.log_load.specs.Steps.{Readable, Ordered, props};

pub use files::{busiest_file, busiest_input};
pub use operation::busiest;

// The characters of the longest sheet.
pub const LONGEST: usize = 2711;

// Why a call is turned back.
#[derive(Clone, Copy)]
pub enum Cause {
    // The checks of lengths, tables and logs, and an output area that is too short.
    Log(log_check::Cause),
    // The width is 0 or exceeds the last end.
    Width,
}

// A cause and its place: of the lengths, the table or the log, or 0.
#[derive(Clone, Copy)]
pub struct Refusal {
    pub cause: Cause,
    pub place: u32,
}

// A refusal of lengths, table or log, as one of these.
impl From<log_check::Refusal> for Refusal {
    ghost from_gives = { λ r result. result ≡ of_log r };

    fn from(refusal: log_check::Refusal) -> Refusal {
        Refusal {
            cause: Cause::Log(refusal.cause),
            place: refusal.place,
        }
    }
}

// The text of an accepted log: it is in the notation, and each line starts at the end of the one before or later.
#[derive(Clone, Copy)]
struct Log<'a> {
    pub text: &'a [u8],
    ghost readable: { Readable text.now } by { Prim.hlevel props },
    ghost ordered: { Ordered 0 (lines_of text.now) } by { Prim.hlevel props },
}

// A stretch: how many of its ticks are busy, and its first tick.
#[derive(Clone, Copy)]
pub struct Best {
    pub count: u64,
    pub first: u64,
}

// A walk along a log to some tick: the first line that ends after it, the ticks that the lines before that one hold, and how many
// ticks before it are busy.
#[derive(Clone, Copy)]
pub struct Walk {
    pub line: usize,
    pub done: u64,
    pub busy: u64,
}

// A stretch that moves along a log: a walk to each end of it, and the best that it has been.
#[derive(Clone, Copy)]
pub struct Window {
    pub from: Walk,
    pub to: Walk,
    pub best: Best,
}

// What is seen of a row: instances, the greatest response and the sum of responses.
#[derive(Clone, Copy)]
pub struct Seen {
    pub count: u64,
    pub most: u64,
    pub total: u64,
}

// The number of a cause in documents 01 and 02.
#[tactic(auto, unfolding(crate::specs::Refusal::number_of))]
pub fn number(cause: Cause) -> u32
    ensures { result ≡ number_of cause }
{
    match cause {
        Cause::Log(log) => log_check::number(log),
        Cause::Width => 20,
    }
}
