// What is checked of a frame table, why one is turned back, and its rows as frames.
// A table is a row of numbers a line, one a column.
#![tactic(auto)]

mod accepted;
mod checks;
mod frames;
mod lengths;

ghost use Rattle.std.specs.Prelude.{◌≡◌, ◌≤◌, ◌++◌, length, drop};
ghost use Rattle.bus_model.specs.Pattern.{of_group, hyperperiod};
ghost use Rattle.table_checks.specs.Frames.{unmeasured};
ghost use Rattle.table_checks.specs.Refusal.{number_of, check_returns};
ghost use Rattle.table_checks.specs.Checks.{rows_check, loaded_check, Loadable, Accepted};
ghost use Rattle.table_checks.specs.Returns.{rows_returns, loaded_returns};

pub use checks::{check_fields, check_length, is_between, is_identifier};
pub use frames::{frame, largest_length, priority, standard_lengths};
pub use lengths::check_lengths;

// The columns of a row, as specs/Columns.antt has them,
pub const NODE: usize = 0;

pub const GROUP: usize = 1;

pub const IDENTIFIER: usize = 2;

pub const KIND: usize = 3;

pub const PAYLOAD: usize = 4;

pub const PERIOD: usize = 5;

pub const OFFSET: usize = 6;

pub const CLAIM: usize = 7;

// and how many they are.
pub const ROW: usize = 8;

// The characters of a line with its line feed, the most lines of a table, and its numbers then.
pub const LINE: usize = 46;

pub const MOST_LINES: usize = 64;

pub const MOST_NUMBERS: usize = ROW * MOST_LINES;

// The lengths of a kind, and the kinds.
pub const PAYLOADS: usize = 9;

pub const KINDS: usize = 2;

// Marks among a table's fields, for a column that breaks the notation, and for the first field of a line
// that does not end in a line feed: above all numbers of a column.
pub const MALFORMED: u64 = 1_000_000_000_000_000_000;

pub const UNTERMINATED: u64 = 1_000_000_000_000_000_001;

// Why a table, or the lengths, are turned back.
#[derive(Clone, Copy)]
pub enum Cause {
    // The file's length is 0 or no multiple of a line's, or a line's last character is no line feed.
    FileForm,
    TooManyLines,
    // A column breaks the notation.
    Notation,
    // A value is outside its limits.
    Limit,
    // Kind and identifier stand on an earlier line.
    Duplicate,
    // A group's hyperperiod is too great.
    Hyperperiod,
    // A group has too many releases in its hyperperiod.
    Releases,
    // The output area is shorter than the result.
    OutputArea,
    // The number of numbers in memory is 0, no multiple of a row's, or too great.
    RowsLength,
    // The file of the lengths has another size, or breaks its notation.
    LengthsFile,
    // A length is outside its limits, or smaller than the one before it.
    Length,
    // The node stands in another group on an earlier line.
    SecondGroup,
}

// A cause, and the line (from 1) or the group where it was found, or 0.
#[derive(Clone, Copy)]
pub struct Refusal {
    pub cause: Cause,
    pub place: u32,
}

// The rows of an accepted table, and lengths that passed their check, by which they are frames.
#[derive(Clone, Copy)]
pub struct Table<'a> {
    pub lengths: [[u32; 9]; 2],
    pub rows: &'a [u32],
    ghost accepted: { Loadable lengths × Accepted rows.now },
}

// The number of a cause in documents 01 and 02.
pub fn number(cause: Cause) -> u32
    ensures { result ≡ number_of cause }
{
    match cause {
        Cause::FileForm => 1,
        Cause::TooManyLines => 2,
        Cause::Notation => 3,
        Cause::Limit => 4,
        Cause::Duplicate => 5,
        Cause::Hyperperiod => 6,
        Cause::Releases => 7,
        Cause::OutputArea => 8,
        Cause::RowsLength => 10,
        Cause::LengthsFile => 13,
        Cause::Length => 14,
        Cause::SecondGroup => 15,
    }
}

// Checks rows in memory.
pub fn check(rows: &[u32]) -> Result<(), Refusal>
    ensures value { result ≡ rows_check rows.now }
    ensures in_numbers { check_returns result ≡ rows_returns rows.now }
{
    let size = rows.len();
    checks::rows_size(size)?;
    let mut fields = [0u64; MOST_NUMBERS];
    widen(rows, &mut fields);
    checks::table(&fields[..size])
}

// Checks lengths, and then rows in memory.
pub fn check_loaded(lengths: [[u32; 9]; 2], rows: &[u32]) -> Result<(), Refusal>
    ensures value { result ≡ loaded_check lengths rows.now }
    ensures in_numbers { check_returns result ≡ loaded_returns lengths rows.now }
{
    check_lengths(lengths)?;
    check(rows)
}

// The hyperperiod of a group of an accepted table.
pub fn hyperperiod(rows: &[u32], group: u64) -> u64
    requires accepted { Accepted rows.now }
    requires le_group { (1 ≤ group) × (group ≤ 16) }
    ensures { result ≡ hyperperiod (of_group (unmeasured rows.now) group) }
{
    let size = rows.len();
    let mut fields = [0u64; MOST_NUMBERS];
    widen(rows, &mut fields);
    checks::bounded_hyperperiod(&fields[..size], group)
}

// Copies rows to the start of wider fields.
// By hand: std copies between equal widths.
fn widen(rows: &[u32], fields: &mut [u64])
    requires { length rows.now ≤ length fields.old }
    ensures { fields.new ≡ rows.now ++ drop (length rows.now) fields.old }
{
    for (k, row) in rows.iter().enumerate() {
        fields[k] = u64::from(*row);
    }
}
