// The sheet of a log, where lengths and table stand in files.
ghost use Rattle.std.specs.Prelude.{◌≡◌, ℕ, Ok};
ghost use Rattle.frame_table.specs.Text.{fields_of};
ghost use Rattle.frame_table.specs.Table.{read_check};
ghost use Rattle.lengths_file.specs.Lengths.{lengths_of};
ghost use Rattle.lengths_file.specs.Input.{lengths_part, table_part};
ghost use Rattle.log_check.specs.Check.{lines_of};
ghost use Rattle.log_load.specs.Sheet.{sheet_of};
ghost use Rattle.log_load.specs.Answer.{width_answer, file_answer, area_after};
ghost use Rattle.log_load.specs.Returns.{answer_returns, file_returns};
ghost use Rattle.log_load.specs.Meaning.{Says};
ghost use Rattle.log_load.specs.Log.{lines};

use crate::operation::write_accepted;
use crate::{Log, Refusal};

// Writes the sheet of a log of the table in a file, by the lengths in another, for stretches of `width` ticks. A refusal leaves the
// output as it is.
pub fn busiest_file(
    lengths: &[u8],
    table: &[u8],
    log: &[u8],
    width: u64,
    out: &mut [u8],
) -> Result<usize, Refusal>
    ensures value { result ≡ file_answer lengths.now table.now log.now width out.old }
    ensures out_after { out.new ≡ area_after result (sheet_of (fields_of table.now) (lines_of log.now) width) out.old }
    ensures says { (n : ℕ) → result ≡ Ok n → Says (lengths_of lengths.now) (fields_of table.now) log.now width n }
    ensures in_numbers { answer_returns result ≡ file_returns lengths.now table.now log.now width out.old }
{
    log_check::check_files(lengths, table, log)?;
    write_table(table, &Log { text: log }, width, out)
}

// The same where one input holds both: its first 92 bytes are the file of the lengths, and the rest is that of the table.
pub fn busiest_input(input: &[u8], log: &[u8], width: u64, out: &mut [u8]) -> Result<usize, Refusal>
    ensures value { result ≡ file_answer (lengths_part input.now) (table_part input.now) log.now width out.old }
    ensures out_after { out.new ≡ area_after result (sheet_of (fields_of (table_part input.now)) (lines_of log.now) width) out.old }
    ensures says { (n : ℕ) → result ≡ Ok n → Says (lengths_of (lengths_part input.now)) (fields_of (table_part input.now)) log.now width n }
    ensures in_numbers { answer_returns result ≡ file_returns (lengths_part input.now) (table_part input.now) log.now width out.old }
{
    let size = input.len();
    let end = lengths_file::lengths_end(size);
    busiest_file(&input[0..end], &input[end..size], log, width, out)
}

// Writes the sheet of an accepted log of the table in a file. The check has read that table; here it is read again, in a function of its
// own, so that the stack never holds its numbers twice.
fn write_table(table: &[u8], log: &Log, width: u64, out: &mut [u8]) -> Result<usize, Refusal>
    requires { read_check table.now ≡ Ok tt }
    ensures value { result ≡ width_answer (fields_of table.now) (lines log.now) width out.old }
    ensures out_after { out.new ≡ area_after result (sheet_of (fields_of table.now) (lines log.now) width) out.old }
{
    let mut rows = [0u32; table_checks::MOST_NUMBERS];
    let n = frame_table::read(table, &mut rows).unwrap();
    write_accepted(&rows[..n], log, width, out)
}
