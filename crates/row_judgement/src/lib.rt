// The judgement of a row of a frame table, with the case that breaks its claim or without, and its precise bound. All take any input, and
// check their lengths and table themselves; judge_accepted and bound_accepted take accepted ones, for what has read them from files,
// judge_row for the listing, which judges all its rows, and pose_row for other searches.
#![tactic(auto)]

mod bound;
mod decide;
mod explanation;
mod judgement;

ghost use Rattle.std.specs.Prelude.{◌≡◌};
ghost use Rattle.row_judgement.specs.Refusal.{number_of, of_table};

pub use bound::{bound_accepted, precise_bound};
pub use decide::{pose_row, prepare_row};
pub use explanation::{explain, explain_faults};
pub use judgement::{
    is_gap, judge, judge_accepted, judge_faults, judge_faults_accepted, judge_row, premise_of,
    verdict,
};

// Why a call is turned back.
#[derive(Clone, Copy)]
pub enum Cause {
    // The checks of lengths and tables, and an output area that is too short.
    Table(table_checks::Cause),
    NoSuchRow,
    // For some alignment of the row's group the approximate bound has no busy window.
    NoWindow,
    TooManyScenarios,
    // A gap between faults that lies outside its limits.
    GapOutside,
}

// A cause and its place: a line, a group, a row, or 0.
#[derive(Clone, Copy)]
pub struct Refusal {
    pub cause: Cause,
    pub place: u32,
}

// What explaining a row answers: what judging it does, and the case that breaks its claim, if its verdict is that the claim is too small.
#[derive(Clone, Copy)]
pub struct Explained {
    pub judged: Result<bus_model::Judgement, Refusal>,
    pub breaking: Option<bus_model::Case>,
}

// The number of a cause in documents 01 and 02.
pub fn number(cause: Cause) -> u32
    ensures { result ≡ number_of cause }
{
    match cause {
        Cause::Table(table) => table_checks::number(table),
        Cause::NoSuchRow => 9,
        Cause::NoWindow => 11,
        Cause::TooManyScenarios => 12,
        Cause::GapOutside => 17,
    }
}

// A refusal of the lengths or the table, as one of these.
impl From<table_checks::Refusal> for Refusal {
    ghost from_gives = { λ r s. s ≡ of_table r };

    fn from(refusal: table_checks::Refusal) -> Refusal {
        Refusal {
            cause: Cause::Table(refusal.cause),
            place: refusal.place,
        }
    }
}
