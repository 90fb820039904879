// The command busiest: the width as it is typed, and the sheet of a log, or its refusal, as they are printed.
#![tactic(auto)]

ghost use Rattle.std.specs.Prelude.{◌≡◌, Ok};
ghost use Rattle.frame_table.specs.Table.{answer_for, area_after};
ghost use Rattle.lengths_file.specs.Input.{lengths_part, table_part};
ghost use Rattle.busiest_command.specs.Command.{text_for, reply_for, area_left};

use certifier::write_refusal_line;

// The characters of the longest text.
pub const LONGEST: usize = log_load::LONGEST;

// Writes the sheet of a log, or the refusal, for the width that an argument names. Lengths and table stand in the input: its first 92
// bytes are the file of the lengths, and the rest is that of the table.
pub fn write_input(
    input: &[u8],
    log: &[u8],
    width: &[u8],
    out: &mut [u8],
) -> Option<Result<usize, table_checks::Refusal>>
    ensures value { result ≡ reply_for (lengths_part input.now) (table_part input.now) log.now width.now out.old }
    ensures out_after { out.new ≡ area_left (lengths_part input.now) (table_part input.now) log.now width.now out.old }
{
    let w = decimal::read(width)?;
    Some(write_text(input, log, w, out))
}

// Writes the sheet for a width, or the refusal.
fn write_text(
    input: &[u8],
    log: &[u8],
    width: u64,
    out: &mut [u8],
) -> Result<usize, table_checks::Refusal>
    ensures value { result ≡ answer_for (Ok tt) (text_for (lengths_part input.now) (table_part input.now) log.now width out.old) out.old }
    ensures out_after { out.new ≡ area_after result (text_for (lengths_part input.now) (table_part input.now) log.now width out.old) out.old }
{
    match log_load::busiest_input(input, log, width, out) {
        Ok(n) => Ok(n),
        Err(refusal) => write_refusal_line(log_load::number(refusal.cause), refusal.place, out),
    }
}
