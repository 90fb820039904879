// Frame tables, read from a file and written to a file.
#![tactic(auto)]

mod text;

ghost use Rattle.std.specs.Prelude.{◌≡◌, ℕ, ◌<◌, ◌≤◌, ◌^◌, ◌++◌, length, get_or, drop, Err};
ghost use Rattle.table_checks.specs.Refusal.{check_returns};
ghost use Rattle.table_checks.specs.Checks.{rows_check};
ghost use Rattle.frame_table.specs.Text.{fields_of, text_of};
ghost use Rattle.frame_table.specs.Table.{read_check, answer_for, area_after, answer_returns, returns_for};

use table_checks::{Cause, LINE, MOST_NUMBERS, ROW, Refusal};

// Reads a file into rows. A refusal leaves them as they are.
pub fn read(file: &[u8], rows: &mut [u32]) -> Result<usize, Refusal>
    ensures value { result ≡ answer_for (read_check file.now) (fields_of file.now) rows.old }
    ensures rows_after { rows.new ≡ area_after result (fields_of file.now) rows.old }
    ensures in_numbers { answer_returns result ≡ returns_for (check_returns (read_check file.now)) (fields_of file.now) rows.old }
{
    table_checks::check_length(file.len())?;
    let lines = file.len() / LINE;
    let mut fields = [0u64; MOST_NUMBERS];
    text::read_fields(file, lines, &mut fields);
    let size = ROW * lines;
    table_checks::check_fields(&fields[..size])?;
    if rows.len() < size {
        return no_room();
    }
    narrow(&fields[..size], rows);
    Ok(size)
}

// Writes rows to a file. A refusal leaves it as it is.
pub fn write(rows: &[u32], file: &mut [u8]) -> Result<usize, Refusal>
    ensures value { result ≡ answer_for (rows_check rows.now) (text_of rows.now) file.old }
    ensures file_after { file.new ≡ area_after result (text_of rows.now) file.old }
    ensures in_numbers { answer_returns result ≡ returns_for (check_returns (rows_check rows.now)) (text_of rows.now) file.old }
{
    table_checks::check(rows)?;
    let lines = rows.len() / ROW;
    if file.len() < LINE * lines {
        return no_room();
    }
    text::write_lines(rows, lines, file);
    Ok(LINE * lines)
}

// The answer where the output area is shorter than the result.
pub fn no_room() -> Result<usize, Refusal>
    ensures { result ≡ Err (record { cause = Cause.OutputArea; place = 0 }) }
{
    Err(Refusal {
        cause: Cause::OutputArea,
        place: 0,
    })
}

// Copies fields that are small enough to the start of rows.
// By hand: std copies between equal widths.
fn narrow(fields: &[u64], rows: &mut [u32])
    requires fields_in_bounds { length fields.now ≤ length rows.old }
    requires by_index { (k : ℕ) → k < length fields.now → get_or fields.now k 0 < 2 ^ 32 }
    ensures { rows.new ≡ fields.now ++ drop (length fields.now) rows.old }
{
    for (k, field) in fields.iter().enumerate() {
        rows[k] = *field as u32;
    }
}
