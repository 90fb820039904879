// The command explain: the row as it is typed, and its line of the listing with the case that breaks its claim, or the refusal, as they
// are printed.
#![tactic(auto)]

ghost use Rattle.std.specs.Prelude.{◌≡◌, ◌++◌, ◌+◌, ◌≤◌, length, Ok};
ghost use Rattle.decimal.specs.Numbered.{numbered_lines};
ghost use Rattle.table_checks.specs.Columns.{field, identifier_column};
ghost use Rattle.frame_table.specs.Table.{answer_for, area_after};
ghost use Rattle.lengths_file.specs.Input.{lengths_part, table_part};
ghost use Rattle.row_judgement.specs.Explain.{explain_row};
ghost use Rattle.certifier.specs.Listing.{listing_line};
ghost use Rattle.explain_command.specs.Command.{instance_width, instance_line, case_text, text_of, text_for, reply_for, area_left};

use bus_model::{Case, Judgement};
use certifier::{LINE, write_line, write_refusal};
use decimal::write_numbered;
use frame_table::no_room;
use row_judgement::{Refusal, explain};
use table_checks::Table;

// The characters of the lines of all groups.
const GROUP_LINES: usize = 192;

// The characters of the longest text.
pub const LONGEST: usize = 232;

const LINE_FEED: u8 = 10;

// Writes what explaining the row answers that an argument names. Lengths and table stand in the input: its first 92 bytes are the file of
// the lengths, and the rest is that of the table.
pub fn write_input(
    input: &[u8],
    row: &[u8],
    out: &mut [u8],
) -> Option<Result<usize, table_checks::Refusal>>
    ensures value { result ≡ reply_for (lengths_part input.now) (table_part input.now) row.now out.old }
    ensures out_after { out.new ≡ area_left (lengths_part input.now) (table_part input.now) row.now out.old }
{
    let r = decimal::read(row)?;
    Some(write_parts(input, r, out))
}

// The same for a row's number.
fn write_parts(input: &[u8], row: u64, out: &mut [u8]) -> Result<usize, table_checks::Refusal>
    ensures value { result ≡ answer_for (Ok tt) (text_for (lengths_part input.now) (table_part input.now) row) out.old }
    ensures out_after { out.new ≡ area_after result (text_for (lengths_part input.now) (table_part input.now) row) out.old }
{
    let size = input.len();
    let end = lengths_file::lengths_end(size);
    write_files(&input[0..end], &input[end..size], row, out)
}

// The same for two files.
fn write_files(
    lengths: &[u8],
    table: &[u8],
    row: u64,
    out: &mut [u8],
) -> Result<usize, table_checks::Refusal>
    ensures value { result ≡ answer_for (Ok tt) (text_for lengths.now table.now row) out.old }
    ensures out_after { out.new ≡ area_after result (text_for lengths.now table.now row) out.old }
{
    let mut rows = [0u32; table_checks::MOST_NUMBERS];
    match lengths_file::read_table(lengths, table, &mut rows) {
        Ok(table) => write_row(&table, row, out),
        Err(refusal) => write_refusal(Refusal::from(refusal), out),
    }
}

// The same for an accepted table.
fn write_row(table: &Table, row: u64, out: &mut [u8]) -> Result<usize, table_checks::Refusal>
    ensures value { result ≡ answer_for (Ok tt) (text_of (field table.now.rows.now row identifier_column) (explain_row table.now.lengths table.now.rows.now row)) out.old }
    ensures out_after { out.new ≡ area_after result (text_of (field table.now.rows.now row identifier_column) (explain_row table.now.lengths table.now.rows.now row)) out.old }
{
    let explained = explain(table.lengths, table.rows, row);
    match explained.judged {
        Err(refusal) => write_refusal(refusal, out),
        Ok(judgement) => {
            let identifier = table.rows[table_checks::ROW * (row as usize)
                + table_checks::IDENTIFIER];
            write_judged(identifier, judgement, explained.breaking, out)
        }
    }
}

// Writes the line of a row, and its case, if there is one.
fn write_judged(
    identifier: u32,
    judgement: Judgement,
    breaking: Option<Case>,
    out: &mut [u8],
) -> Result<usize, table_checks::Refusal>
    ensures value { result ≡ answer_for (Ok tt) (listing_line identifier judgement ++ case_text breaking) out.old }
    ensures out_after { out.new ≡ area_after result (listing_line identifier judgement ++ case_text breaking) out.old }
{
    match breaking {
        None => write_one(identifier, judgement, out),
        Some(case) => write_case(identifier, judgement, case.alignments, case.instance, out),
    }
}

// Writes the line of a row.
fn write_one(
    identifier: u32,
    judgement: Judgement,
    out: &mut [u8],
) -> Result<usize, table_checks::Refusal>
    ensures value { result ≡ answer_for (Ok tt) (listing_line identifier judgement) out.old }
    ensures out_after { out.new ≡ area_after result (listing_line identifier judgement) out.old }
{
    if out.len() < LINE {
        return no_room();
    }
    write_line(identifier, judgement, &mut out[0..LINE]);
    Ok(LINE)
}

// Writes the line of a row, the lines of the groups, and that of the instance.
fn write_case(
    identifier: u32,
    judgement: Judgement,
    alignments: [u32; 16],
    q: u32,
    out: &mut [u8],
) -> Result<usize, table_checks::Refusal>
    ensures value { result ≡ answer_for (Ok tt) (listing_line identifier judgement ++ (numbered_lines 8 alignments 16 0 ++ instance_line q)) out.old }
    ensures out_after { out.new ≡ area_after result (listing_line identifier judgement ++ (numbered_lines 8 alignments 16 0 ++ instance_line q)) out.old }
{
    let groups_end = LINE + GROUP_LINES;
    let end = groups_end + instance_width(q) + 1;
    if out.len() < end {
        return no_room();
    }
    write_line(identifier, judgement, &mut out[0..LINE]);
    write_numbered(&alignments, &mut out[LINE..groups_end]);
    write_instance(q, &mut out[groups_end..end]);
    Ok(end)
}

// How wide the instance is written: three digits, or eight where it has more than three.
fn instance_width(q: u32) -> usize
    ensures value { result ≡ instance_width q }
    ensures small { result ≤ 8 }
{
    if q < 1000 { 3 } else { 8 }
}

// Writes the instance, and a line feed.
fn write_instance(q: u32, line: &mut [u8])
    requires { length line.old ≡ instance_width q + 1 }
    ensures { line.new ≡ instance_line q }
{
    let end = instance_width(q);
    decimal::write(&mut line[0..end], q as u64);
    line[end] = LINE_FEED;
}
