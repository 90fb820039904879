// The command check-log: the starts of groups 1 to 16 with which a log is the beginning of a schedule, or its refusal, as they are printed.
#![tactic(auto)]

ghost use Rattle.std.specs.Prelude.{◌≡◌, ◌++◌, ◌≤◌, length, drop, Ok};
ghost use Rattle.frame_table.specs.Table.{answer_for, area_after};
ghost use Rattle.lengths_file.specs.Input.{lengths_part, table_part};
ghost use Rattle.log_check.specs.Returns.{files_returns};
ghost use Rattle.log_command.specs.Command.{starts_text, text_of};

use certifier::write_refusal_line;
use decimal::write_numbered_line;
use frame_table::no_room;
use log_check::GROUPS;

// The characters of a line with its line feed, and of all sixteen: no text is longer.
const LINE: usize = 15;

pub const LONGEST: usize = 240;

// Writes the starts, or the refusal. Lengths and table stand in the input: its first 92 bytes are the file of the lengths, and the rest is
// that of the table.
pub fn write_input(input: &[u8], log: &[u8], out: &mut [u8]) -> Result<usize, table_checks::Refusal>
    ensures value { result ≡ answer_for (Ok tt) (text_of (files_returns (lengths_part input.now) (table_part input.now) log.now)) out.old }
    ensures out_after { out.new ≡ area_after result (text_of (files_returns (lengths_part input.now) (table_part input.now) log.now)) out.old }
{
    let size = input.len();
    let end = lengths_file::lengths_end(size);
    match log_check::check_files(&input[0..end], &input[end..size], log) {
        Ok(starts) => write_starts(&starts, out),
        Err(refusal) => write_refusal_line(log_check::number(refusal.cause), refusal.place, out),
    }
}

// Writes the starts.
fn write_starts(starts: &[u64], out: &mut [u8]) -> Result<usize, table_checks::Refusal>
    requires { length starts.now ≡ 16 }
    ensures value { result ≡ answer_for (Ok tt) (starts_text starts.now) out.old }
    ensures out_after { out.new ≡ area_after result (starts_text starts.now) out.old }
{
    if out.len() < LONGEST {
        return no_room();
    }
    write_lines(starts, out);
    Ok(LONGEST)
}

// Writes the lines of the groups.
fn write_lines(starts: &[u64], out: &mut [u8])
    requires { (length starts.now ≡ 16) × (240 ≤ length out.old) }
    ensures { out.new ≡ starts_text starts.now ++ drop 240 out.old }
{
    for i in 0..GROUPS {
        let from = LINE * i;
        let to = from + LINE;
        write_numbered_line((i + 1) as u64, starts[i], 11, &mut out[from..to]);
    }
}
