// The command worst: the line of the listing of the frame that ranks last, and its worst case, as they are printed.
#![tactic(auto)]

ghost use Rattle.std.specs.Prelude.{◌≡◌, ◌++◌, ◌<◌, ◌/◌, length, Ok};
ghost use Rattle.bus_model.specs.declared.Faults.TheVariants.{Never};
ghost use Rattle.decimal.specs.Numbered.{numbered_lines};
ghost use Rattle.table_checks.specs.Columns.{columns};
ghost use Rattle.frame_table.specs.Text.{fields_of};
ghost use Rattle.frame_table.specs.Table.{answer_for, area_after};
ghost use Rattle.lengths_file.specs.Lengths.{lengths_of};
ghost use Rattle.lengths_file.specs.Input.{input_check, lengths_part, table_part};
ghost use Rattle.certifier.specs.Listing.{line_of};
ghost use Rattle.worst_command.specs.Command.{response_line, worst_text, text_of};

use bus_model::Faults;
use certifier::{LINE, write_row};
use decimal::write_numbered;
use frame_table::no_room;
use table_checks::Table;
use worst_case::{WorstCase, last_row, worst_row};

// Where the lines of the groups end, and the characters of the longest text.
const GROUPS_END: usize = 223;

pub const LONGEST: usize = 240;

const LINE_FEED: u8 = 10;

// Writes the lines for an input that holds both files: its first 92 bytes are that of the lengths, and the rest is that of the table. A
// refusal leaves the output as it is.
pub fn write_input(input: &[u8], out: &mut [u8]) -> Result<usize, table_checks::Refusal>
    ensures value { result ≡ answer_for (input_check (lengths_part input.now) (table_part input.now)) (text_of (lengths_of (lengths_part input.now)) (fields_of (table_part input.now))) out.old }
    ensures out_after { out.new ≡ area_after result (text_of (lengths_of (lengths_part input.now)) (fields_of (table_part input.now))) out.old }
{
    let size = input.len();
    let end = lengths_file::lengths_end(size);
    write_files(&input[0..end], &input[end..size], out)
}

// The same for two files.
fn write_files(lengths: &[u8], table: &[u8], out: &mut [u8]) -> Result<usize, table_checks::Refusal>
    ensures value { result ≡ answer_for (input_check lengths.now table.now) (text_of (lengths_of lengths.now) (fields_of table.now)) out.old }
    ensures out_after { out.new ≡ area_after result (text_of (lengths_of lengths.now) (fields_of table.now)) out.old }
{
    let mut rows = [0u32; table_checks::MOST_NUMBERS];
    let table = lengths_file::read_table(lengths, table, &mut rows)?;
    write_last(&table, out)
}

// The same for the rows of an accepted table.
fn write_last(table: &Table, out: &mut [u8]) -> Result<usize, table_checks::Refusal>
    ensures value { result ≡ answer_for (Ok tt) (text_of table.now.lengths table.now.rows.now) out.old }
    ensures out_after { out.new ≡ area_after result (text_of table.now.lengths table.now.rows.now) out.old }
{
    let i = last_row(table);
    write_with(table, i, worst_row(table, i), out)
}

// Writes the line of a row, and the worst case, if one is shown.
fn write_with(
    table: &Table,
    i: usize,
    worst: Option<WorstCase>,
    out: &mut [u8],
) -> Result<usize, table_checks::Refusal>
    requires { i < length table.now.rows.now / columns }
    ensures value { result ≡ answer_for (Ok tt) (line_of Never table.now.lengths table.now.rows.now i ++ worst_text worst) out.old }
    ensures out_after { out.new ≡ area_after result (line_of Never table.now.lengths table.now.rows.now i ++ worst_text worst) out.old }
{
    match worst {
        None => write_line(table, i, out),
        Some(case) => write_lines_of(table, i, case.starts, case.instance, case.response, out),
    }
}

// Writes the line of a row.
fn write_line(table: &Table, i: usize, out: &mut [u8]) -> Result<usize, table_checks::Refusal>
    requires { i < length table.now.rows.now / columns }
    ensures value { result ≡ answer_for (Ok tt) (line_of Never table.now.lengths table.now.rows.now i) out.old }
    ensures out_after { out.new ≡ area_after result (line_of Never table.now.lengths table.now.rows.now i) out.old }
{
    if out.len() < LINE {
        return no_room();
    }
    write_row(table, Faults::Never, i, &mut out[0..LINE]);
    Ok(LINE)
}

// Writes the line of a row, the starts of the groups, and the instance with its response.
fn write_lines_of(
    table: &Table,
    i: usize,
    starts: [u32; 16],
    instance: u32,
    response: u32,
    out: &mut [u8],
) -> Result<usize, table_checks::Refusal>
    requires { i < length table.now.rows.now / columns }
    ensures value { result ≡ answer_for (Ok tt) (line_of Never table.now.lengths table.now.rows.now i ++ (numbered_lines 8 starts 16 0 ++ response_line instance response)) out.old }
    ensures out_after { out.new ≡ area_after result (line_of Never table.now.lengths table.now.rows.now i ++ (numbered_lines 8 starts 16 0 ++ response_line instance response)) out.old }
{
    if out.len() < LONGEST {
        return no_room();
    }
    write_row(table, Faults::Never, i, &mut out[0..LINE]);
    write_numbered(&starts, &mut out[LINE..GROUPS_END]);
    write_response(instance, response, &mut out[GROUPS_END..LONGEST]);
    Ok(LONGEST)
}

// Writes instance (8) and response (8), and a line feed.
fn write_response(instance: u32, response: u32, line: &mut [u8])
    requires { length line.old ≡ 17 }
    ensures { line.new ≡ response_line instance response }
{
    decimal::write(&mut line[0..8], instance as u64);
    decimal::write(&mut line[8..16], response as u64);
    line[16] = LINE_FEED;
}
