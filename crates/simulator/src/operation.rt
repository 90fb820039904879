// The operation on rows in memory, on files, and on an input that holds both.
ghost use Rattle.std.specs.Prelude.{◌≡◌, ℕ, ◌≤◌, Ok};
ghost use Rattle.table_checks.specs.Frames.{frames_of};
ghost use Rattle.table_checks.specs.Checks.{loaded_check};
ghost use Rattle.table_checks.specs.Returns.{loaded_returns};
ghost use Rattle.frame_table.specs.Text.{fields_of};
ghost use Rattle.frame_table.specs.Table.{answer_for, area_after};
ghost use Rattle.lengths_file.specs.Lengths.{lengths_of};
ghost use Rattle.lengths_file.specs.Input.{input_check, input_returns, lengths_part, table_part};
ghost use Rattle.bus_log.specs.Log.{AcceptedLog};
ghost use Rattle.simulator.specs.Simulate.{log_of, text_of, wanted_for, simulated_for, area_left, simulated_returns, simulate_returns};

use crate::text::LINE;
use crate::{MOST_LINES, Refusal, drawing, text};
use frame_table::no_room;
use table_checks::{MOST_NUMBERS, Table, is_between};

// Writes a log of so many lines of a table, by the lengths loaded, from a seed. A refusal leaves the output as it is. What is written is
// the log of a schedule that the bus rule allows.
pub fn simulate(
    lengths: [[u32; 9]; 2],
    rows: &[u32],
    seed: u32,
    lines: u64,
    out: &mut [u8],
) -> Result<usize, Refusal>
    ensures value { result ≡ simulated_for (loaded_check lengths rows.now) seed lines (text_of lengths rows.now seed lines) out.old }
    ensures out_after { out.new ≡ area_left result (text_of lengths rows.now seed lines) out.old }
    ensures in_numbers { simulated_returns result ≡ simulate_returns (loaded_returns lengths rows.now) seed lines (text_of lengths rows.now seed lines) out.old }
    ensures accepted { (n : ℕ) → result ≡ Ok n → AcceptedLog (frames_of lengths rows.now) rows.now (log_of lengths rows.now seed lines) }
{
    let table = Table::check(lengths, rows)?;
    simulate_accepted(&table, seed, lines, out)
}

// The same of the table in a file, by the lengths in another.
pub fn simulate_files(
    lengths: &[u8],
    file: &[u8],
    seed: u32,
    lines: u64,
    out: &mut [u8],
) -> Result<usize, Refusal>
    ensures value { result ≡ simulated_for (input_check lengths.now file.now) seed lines (text_of (lengths_of lengths.now) (fields_of file.now) seed lines) out.old }
    ensures out_after { out.new ≡ area_left result (text_of (lengths_of lengths.now) (fields_of file.now) seed lines) out.old }
    ensures in_numbers { simulated_returns result ≡ simulate_returns (input_returns lengths.now file.now) seed lines (text_of (lengths_of lengths.now) (fields_of file.now) seed lines) out.old }
{
    let mut rows = [0u32; MOST_NUMBERS];
    let table = lengths_file::read_table(lengths, file, &mut rows)?;
    simulate_accepted(&table, seed, lines, out)
}

// The same of an input that holds both: its first 92 bytes are the file of the lengths, and the rest is that of the table.
pub fn simulate_input(input: &[u8], seed: u32, lines: u64, out: &mut [u8]) -> Result<usize, Refusal>
    ensures value { result ≡ simulated_for (input_check (lengths_part input.now) (table_part input.now)) seed lines (text_of (lengths_of (lengths_part input.now)) (fields_of (table_part input.now)) seed lines) out.old }
    ensures out_after { out.new ≡ area_left result (text_of (lengths_of (lengths_part input.now)) (fields_of (table_part input.now)) seed lines) out.old }
    ensures in_numbers { simulated_returns result ≡ simulate_returns (input_returns (lengths_part input.now) (table_part input.now)) seed lines (text_of (lengths_of (lengths_part input.now)) (fields_of (table_part input.now)) seed lines) out.old }
{
    let size = input.len();
    let end = lengths_file::lengths_end(size);
    simulate_files(&input[0..end], &input[end..size], seed, lines, out)
}

// The same of an accepted table.
fn simulate_accepted(table: &Table, seed: u32, lines: u64, out: &mut [u8]) -> Result<usize, Refusal>
    ensures value { result ≡ wanted_for seed lines (text_of table.now.lengths table.now.rows.now seed lines) out.old }
    ensures out_after { out.new ≡ area_left result (text_of table.now.lengths table.now.rows.now seed lines) out.old }
{
    if seed == 0 {
        return Err(Refusal::ZeroSeed);
    }
    if !is_between(1, MOST_LINES, lines) {
        return Err(Refusal::LineCount);
    }
    Ok(write(table, seed, lines as usize, out)?)
}

// Writes the log of an accepted table.
fn write(
    table: &Table,
    seed: u32,
    lines: usize,
    out: &mut [u8],
) -> Result<usize, table_checks::Refusal>
    requires { lines ≤ 1600 }
    ensures value { result ≡ answer_for (Ok tt) (text_of table.now.lengths table.now.rows.now seed lines) out.old }
    ensures out_after { out.new ≡ area_after result (text_of table.now.lengths table.now.rows.now seed lines) out.old }
{
    if out.len() < LINE * lines {
        return no_room();
    }
    let starts = drawing::draw_starts(table, seed);
    let first = drawing::first(table, starts);
    text::write_log(table, first, lines, out);
    Ok(LINE * lines)
}
