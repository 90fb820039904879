// The listing of a table: a line a row, in table order.
ghost use Rattle.std.specs.Prelude.{◌≡◌, ◌*◌, ◌/◌, ◌<◌, ◌≤◌, ◌++◌, length, drop, Ok};
ghost use Rattle.table_checks.specs.Columns.{columns};
ghost use Rattle.table_checks.specs.Refusal.{returned};
ghost use Rattle.frame_table.specs.Text.{fields_of};
ghost use Rattle.frame_table.specs.Table.{read_check, answer_for, area_after, answer_returns, returns_for};
ghost use Rattle.lengths_file.specs.Lengths.{lengths_of};
ghost use Rattle.lengths_file.specs.Input.{input_check, input_returns, lengths_part, table_part};
ghost use Rattle.bus_model.specs.declared.Faults.TheVariants.{Never};
ghost use Rattle.workload.specs.Faults.{FineFaults};
ghost use Rattle.row_judgement.specs.Refusal.{number_of};
ghost use Rattle.certifier.specs.Listing.{listing_line, line_of, lines_from, listing_of, refusal_line};

use bus_model::{Faults, Judgement};
use frame_table::no_room;
use row_judgement::Refusal;
use table_checks::Table;

// The characters of a line with its line feed, and of the line of a refusal.
pub const LINE: usize = 31;

pub const REFUSAL_LINE: usize = 10;

const LINE_FEED: u8 = 10;

// Lists the judgements of the table in a file, by the lengths in another. A refusal leaves the output as it is.
pub fn list(lengths: &[u8], file: &[u8], out: &mut [u8]) -> Result<usize, table_checks::Refusal>
    ensures value { result ≡ answer_for (input_check lengths.now file.now) (listing_of Never (lengths_of lengths.now) (fields_of file.now)) out.old }
    ensures out_after { out.new ≡ area_after result (listing_of Never (lengths_of lengths.now) (fields_of file.now)) out.old }
    ensures in_numbers { answer_returns result ≡ returns_for (input_returns lengths.now file.now) (listing_of Never (lengths_of lengths.now) (fields_of file.now)) out.old }
{
    let lengths = lengths_file::load(lengths)?;
    let mut rows = [0u32; table_checks::MOST_NUMBERS];
    // A match: what a refused table answers is an arm of its own, so that an edit of it is refused for its value.
    match frame_table::read(file, &mut rows) {
        Ok(size) => {
            let rows = &rows[..size];
            list_rows(&Table { lengths, rows }, Faults::Never, out)
        }
        Err(refusal) => Err(refusal),
    }
}

// Lists an input that holds both: its first 92 bytes are the file of the lengths, and the rest is that of the table.
pub fn list_input(input: &[u8], out: &mut [u8]) -> Result<usize, table_checks::Refusal>
    ensures value { result ≡ answer_for (input_check (lengths_part input.now) (table_part input.now)) (listing_of Never (lengths_of (lengths_part input.now)) (fields_of (table_part input.now))) out.old }
    ensures out_after { out.new ≡ area_after result (listing_of Never (lengths_of (lengths_part input.now)) (fields_of (table_part input.now))) out.old }
    ensures in_numbers { answer_returns result ≡ returns_for (input_returns (lengths_part input.now) (table_part input.now)) (listing_of Never (lengths_of (lengths_part input.now)) (fields_of (table_part input.now))) out.old }
{
    let end = lengths_file::lengths_end(input.len());
    list(&input[..end], &input[end..], out)
}

// Lists the judgements of the rows of an accepted table, under a premise about faults.
pub fn list_rows(
    table: &Table,
    faults: Faults,
    out: &mut [u8],
) -> Result<usize, table_checks::Refusal>
    requires { FineFaults faults }
    ensures value { result ≡ answer_for (Ok tt) (listing_of faults table.now.lengths table.now.rows.now) out.old }
    ensures out_after { out.new ≡ area_after result (listing_of faults table.now.lengths table.now.rows.now) out.old }
{
    let lines = table.count();
    if out.len() < LINE * lines {
        return no_room();
    }
    for i in 0..lines {
        let from = LINE * i;
        write_row(table, faults, i, &mut out[from..from + LINE]);
    }
    Ok(LINE * lines)
}

// Writes the line of row i.
pub fn write_row(table: &Table, faults: Faults, i: usize, line: &mut [u8])
    requires fine_faults { FineFaults faults }
    requires i_in_bounds { (i < length table.now.rows.now / columns) × (length line.old ≡ 31) }
    ensures { line.new ≡ line_of faults table.now.lengths table.now.rows.now i }
{
    let judgement = row_judgement::judge_row(table, i, faults);
    write_line(
        table.rows[table_checks::ROW * i + table_checks::IDENTIFIER],
        judgement,
        line,
    );
}

// Writes identifier, verdict, bound and margin, and a line feed.
pub fn write_line(identifier: u32, judgement: Judgement, line: &mut [u8])
    requires { length line.old ≡ 31 }
    ensures { line.new ≡ listing_line identifier judgement }
{
    let verdict = row_judgement::verdict(judgement.outcome);
    decimal::write(&mut line[..10], u64::from(identifier));
    decimal::write(&mut line[10..13], u64::from(verdict));
    decimal::write(&mut line[13..21], u64::from(judgement.bound));
    decimal::write_signed(&mut line[21..30], judgement.margin);
    line[LINE - 1] = LINE_FEED;
}

// Writes the line of a refusal: number and place, and a line feed.
pub fn write_refusal(refusal: Refusal, out: &mut [u8]) -> Result<usize, table_checks::Refusal>
    ensures value { result ≡ answer_for (Ok tt) (refusal_line (number_of refusal.cause) refusal.place) out.old }
    ensures out_after { out.new ≡ area_after result (refusal_line (number_of refusal.cause) refusal.place) out.old }
    ensures in_numbers { answer_returns result ≡ returns_for (returned 0 0) (refusal_line (number_of refusal.cause) refusal.place) out.old }
{
    write_refusal_line(row_judgement::number(refusal.cause), refusal.place, out)
}

// The same by number and place.
pub fn write_refusal_line(
    number: u32,
    place: u32,
    out: &mut [u8],
) -> Result<usize, table_checks::Refusal>
    ensures value { result ≡ answer_for (Ok tt) (refusal_line number place) out.old }
    ensures out_after { out.new ≡ area_after result (refusal_line number place) out.old }
{
    if out.len() < REFUSAL_LINE {
        return no_room();
    }
    decimal::write(&mut out[..3], u64::from(number));
    decimal::write(&mut out[3..9], u64::from(place));
    out[REFUSAL_LINE - 1] = LINE_FEED;
    Ok(REFUSAL_LINE)
}
