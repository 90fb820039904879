// A bus log checked against its table. It takes any input, and checks its lengths and table itself.
#![tactic(auto)]

mod files;
mod follow;
mod text;

ghost use Rattle.std.specs.Prelude.{◌≡◌};
ghost use Rattle.table_checks.specs.Returns.{loaded_returns};
ghost use Rattle.log_check.specs.Refusal.{number_of, of_table};
ghost use Rattle.log_check.specs.Check.{refused_at, text_answer, log_answer};
ghost use Rattle.log_check.specs.Verdict.{Says};
ghost use Rattle.log_check.specs.Returns.{log_returns, log_returns_for};

pub use files::check_files;
use table_checks::Table;
pub use text::line_of;

// The groups whose starts are shown.
pub const GROUPS: usize = 16;

// Why a log is turned back.
#[derive(Clone, Copy)]
pub enum Cause {
    // The checks of lengths and tables, and an output area that is too short.
    Table(table_checks::Cause),
    // The log's length is none that a log can have, or a line breaks the notation or the limits.
    Notation,
    // With no starts it is the beginning of a schedule.
    Contradiction,
}

// A cause and its place: of the table, or a line of the log (from 1), or a number of its lines, or 0.
#[derive(Clone, Copy)]
pub struct Refusal {
    pub cause: Cause,
    pub place: u32,
}

// A refusal of the lengths or the table, as one of these.
impl From<table_checks::Refusal> for Refusal {
    ghost from_gives = { λ r result. result ≡ of_table r };

    fn from(refusal: table_checks::Refusal) -> Refusal {
        Refusal {
            cause: Cause::Table(refusal.cause),
            place: refusal.place,
        }
    }
}

// The number of a cause in documents 01 and 02.
#[tactic(auto, unfolding(crate::specs::Refusal::number_of))]
pub fn number(cause: Cause) -> u32
    ensures { result ≡ number_of cause }
{
    match cause {
        Cause::Table(table) => table_checks::number(table),
        Cause::Notation => 18,
        Cause::Contradiction => 19,
    }
}

// Checks a log against its table, by the lengths loaded, and shows the starts of groups 1 to 16. An accepted log is the beginning of a
// schedule with these, and a group that has a line has no other start; where it is refused by Contradiction, no starts make its first
// lines, as many as the place says, such a beginning, and for every fewer some do.
pub fn check_log(lengths: [[u32; 9]; 2], rows: &[u32], text: &[u8]) -> Result<[u64; 16], Refusal>
    ensures value { result ≡ log_answer lengths rows.now text.now }
    ensures says { Says lengths rows.now text.now result }
    ensures in_numbers { log_returns result ≡ log_returns_for (loaded_returns lengths rows.now) lengths rows.now text.now }
{
    let table = Table::check(lengths, rows)?;
    check_text(&table, text)
}

// Checks a log whose lengths and table are accepted.
fn check_text(table: &Table, text: &[u8]) -> Result<[u64; 16], Refusal>
    ensures { result ≡ text_answer table.now.lengths table.now.rows.now text.now }
{
    if text::is_missized(text.len()) {
        return refuse_at(Cause::Notation, 0);
    }
    match text::first_broken(text) {
        Some(i) => refuse_at(Cause::Notation, i + 1),
        None => follow::answer(table, text),
    }
}

// The answer where a log is turned back.
fn refuse_at(cause: Cause, place: u32) -> Result<[u64; 16], Refusal>
    ensures { result ≡ refused_at cause place }
{
    Err(Refusal { cause, place })
}
