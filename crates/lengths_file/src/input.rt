// An input that holds both files: its first 92 bytes are the lengths, and the rest is the table.
ghost use Rattle.std.specs.Prelude.{◌≡◌, min, Ok, Err, MatchResult};
ghost use Rattle.table_checks.specs.Refusal.{check_returns};
ghost use Rattle.frame_table.specs.Text.{fields_of};
ghost use Rattle.lengths_file.specs.Lengths.{lengths_of};
ghost use Rattle.lengths_file.specs.Input.{input_check, size_check, size_returns};

use crate::{FILE, load};
use table_checks::{MOST_NUMBERS, Refusal, Table};

// Where the lengths end in an input of so many bytes.
pub fn lengths_end(size: usize) -> usize
    ensures { result ≡ min size 92 }
{
    size.min(FILE)
}

// Checks an input of so many bytes whose table is too long, by its start alone: its lengths, and the table's size.
pub fn check_size(start: &[u8], size: usize) -> Result<(), Refusal>
    ensures value { result ≡ size_check start.now size }
    ensures in_numbers { check_returns result ≡ size_returns start.now size }
{
    let end = lengths_end(start.len());
    load(&start[0..end])?;
    table_checks::check_length(size - lengths_end(size))
}

// Reads the table of a file, by the lengths of another, into rows that the caller lends.
pub fn read_table<'a>(
    lengths: &[u8],
    file: &[u8],
    rows: &'a mut [u32; MOST_NUMBERS],
) -> Result<Table<'a>, Refusal>
    ensures { MatchResult result (λ table. (input_check lengths.now file.now ≡ Ok tt) × (table.lengths ≡ lengths_of lengths.now) × (table.rows.now ≡ fields_of file.now)) (λ refusal. input_check lengths.now file.now ≡ Err refusal) }
{
    let lengths = load(lengths)?;
    let size = frame_table::read(file, rows)?;
    Ok(Table {
        lengths,
        rows: &rows[..size],
    })
}
