// The command faults: the gap as it is typed, and the listing under faults, or the refusal, as they are printed.
#![tactic(auto)]

ghost use Rattle.std.specs.Prelude.{◌≡◌};
ghost use Rattle.lengths_file.specs.Input.{lengths_part, table_part};
ghost use Rattle.faults_command.specs.Command.{reply_for, area_left};

use certifier::{list_faults, write_refusal};

// Writes the listing of a table where faults begin at least so many ticks apart, or the line of its refusal. Lengths and table stand in the
// input: its first 92 bytes are the file of the lengths, and the rest is that of the table.
pub fn write_input(
    input: &[u8],
    gap: &[u8],
    out: &mut [u8],
) -> Option<Result<usize, table_checks::Refusal>>
    ensures value { result ≡ reply_for (lengths_part input.now) (table_part input.now) gap.now out.old }
    ensures out_after { out.new ≡ area_left (lengths_part input.now) (table_part input.now) gap.now out.old }
{
    let gap = decimal::read(gap)?;
    let end = lengths_file::lengths_end(input.len());
    let written = match list_faults(&input[..end], &input[end..], gap, out) {
        Ok(n) => Ok(n),
        Err(refusal) => write_refusal(refusal, out),
    };
    Some(written)
}
