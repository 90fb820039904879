// The sheet: a line for each node that has frames, nodes rising, and a last line.
ghost use Rattle.std.specs.Prelude.{◌≡◌, ◌*◌, ◌≤◌, max, ◌++◌, length, take, drop, Ok};
ghost use Rattle.frame_table.specs.Text.{fields_of};
ghost use Rattle.frame_table.specs.Table.{answer_for, area_after, answer_returns, returns_for};
ghost use Rattle.lengths_file.specs.Lengths.{lengths_of};
ghost use Rattle.lengths_file.specs.Input.{input_check, input_returns, lengths_part, table_part};
ghost use Rattle.load_sheet.specs.Sheet.{nodes_of, node_load, node_line, lines_of, last_line, greatest_quotient, sheet_of};
ghost use Rattle.load_sheet.specs.Steps.{Nodes};

use crate::Load;
use crate::loads::{has_frames, node_load};
use frame_table::no_room;
use table_checks::Table;

const NODES: usize = 16;

// The characters of a node's line, and of the last line, with the line feed.
const LINE: usize = 30;

const LAST_LINE: usize = 14;

const LINE_FEED: u8 = 10;

// Writes the load sheet of the table in a file, by the lengths in another. A refusal leaves the output as it is.
pub fn write(lengths: &[u8], file: &[u8], out: &mut [u8]) -> Result<usize, table_checks::Refusal>
    ensures value { result ≡ answer_for (input_check lengths.now file.now) (sheet_of (lengths_of lengths.now) (fields_of file.now)) out.old }
    ensures out_after { out.new ≡ area_after result (sheet_of (lengths_of lengths.now) (fields_of file.now)) out.old }
    ensures in_numbers { answer_returns result ≡ returns_for (input_returns lengths.now file.now) (sheet_of (lengths_of lengths.now) (fields_of file.now)) out.old }
{
    let mut rows = [0u32; table_checks::MOST_NUMBERS];
    let table = lengths_file::read_table(lengths, file, &mut rows)?;
    write_rows(&table, out)
}

// Writes the load sheet of an input that holds both: its first 92 bytes are the file of the lengths, and the rest is that of the table.
pub fn write_input(input: &[u8], out: &mut [u8]) -> Result<usize, table_checks::Refusal>
    ensures value { result ≡ answer_for (input_check (lengths_part input.now) (table_part input.now)) (sheet_of (lengths_of (lengths_part input.now)) (fields_of (table_part input.now))) out.old }
    ensures out_after { out.new ≡ area_after result (sheet_of (lengths_of (lengths_part input.now)) (fields_of (table_part input.now))) out.old }
    ensures in_numbers { answer_returns result ≡ returns_for (input_returns (lengths_part input.now) (table_part input.now)) (sheet_of (lengths_of (lengths_part input.now)) (fields_of (table_part input.now))) out.old }
{
    let size = input.len();
    let end = lengths_file::lengths_end(size);
    write(&input[0..end], &input[end..size], out)
}

// Writes the load sheet of an accepted table.
fn write_rows(table: &Table, out: &mut [u8]) -> Result<usize, table_checks::Refusal>
    ensures value { result ≡ answer_for (Ok tt) (sheet_of table.now.lengths table.now.rows.now) out.old }
    ensures out_after { out.new ≡ area_after result (sheet_of table.now.lengths table.now.rows.now) out.old }
{
    let mut nodes = [0u32; NODES];
    let count = find_nodes(table.rows, &mut nodes);
    let end = LINE * count;
    if out.len() < end + LAST_LINE {
        return no_room();
    }
    let most = write_lines(table, &nodes[..count], out);
    let to = end + LAST_LINE;
    write_last(count, most, &mut out[end..to]);
    Ok(to)
}

// Puts the nodes that have frames at the start of an area, rising, and answers how many they are.
fn find_nodes(rows: &[u32], nodes: &mut [u32]) -> usize
    requires { length nodes.old ≡ 16 }
    ensures nodes_after { take result nodes.new ≡ nodes_of rows.now }
    ensures counted { (result ≡ length (nodes_of rows.now)) × (result ≤ 16) }
{
    let mut found = 0;
    for node in 1..=16 {
        if has_frames(rows, node) {
            nodes[found] = node;
            found += 1;
        }
    }
    found
}

// Writes the lines of the nodes, and answers their greatest quotient.
fn write_lines(table: &Table, nodes: &[u32], out: &mut [u8]) -> u64
    requires nodes { Nodes table.now.rows.now nodes.now }
    requires nodes_in_bounds { 30 * length nodes.now ≤ length out.old }
    ensures value { result ≡ greatest_quotient (node_load table.now.lengths table.now.rows.now) nodes.now }
    ensures out_after { out.new ≡ lines_of (node_load table.now.lengths table.now.rows.now) nodes.now ++ drop (30 * length nodes.now) out.old }
{
    let mut most = 0;
    for (i, node) in nodes.iter().enumerate() {
        let load = node_load(table, *node);
        let from = LINE * i;
        let to = from + LINE;
        write_line(*node, load, &mut out[from..to]);
        most = most.max(load.quotient);
    }
    most
}

// Writes node, quotient, remainder and divisor, and a line feed.
fn write_line(node: u32, load: Load, line: &mut [u8])
    requires { length line.old ≡ 30 }
    ensures { line.new ≡ node_line node load }
{
    decimal::write(&mut line[0..3], node as u64);
    decimal::write(&mut line[3..13], load.quotient);
    decimal::write(&mut line[13..21], load.remainder);
    decimal::write(&mut line[21..29], load.divisor);
    line[LINE - 1] = LINE_FEED;
}

// Writes the number of nodes and the greatest quotient, and a line feed.
fn write_last(count: usize, most: u64, line: &mut [u8])
    requires { length line.old ≡ 14 }
    ensures { line.new ≡ last_line count most }
{
    decimal::write(&mut line[0..3], count as u64);
    decimal::write(&mut line[3..13], most);
    line[LAST_LINE - 1] = LINE_FEED;
}
