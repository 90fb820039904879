// The entry for C that gives the busiest stretch of a log, and the sheet of its rows.
ghost use Rattle.std.specs.Prelude.{◌≡◌};
ghost use Rattle.frame_table.specs.Text.{fields_of};
ghost use Rattle.log_check.specs.Check.{lines_of};
ghost use Rattle.log_load.specs.Sheet.{sheet_of};
ghost use Rattle.log_load.specs.Answer.{file_answer, area_after};
ghost use Rattle.log_load.specs.Returns.{file_returns};
ghost use Rattle.certifier.specs.LogEntry.{encode_answered};

use crate::encode::encode_turned;

// Writes the sheet of the log, for stretches of `width` ticks, and answers its length. A refusal leaves the output as it is.
pub fn certifier_busiest(
    lengths: &[u8],
    table: &[u8],
    log: &[u8],
    width: u64,
    out: &mut [u8],
) -> i64
    ensures value { result ≡ encode_answered (file_returns lengths.now table.now log.now width out.old) }
    ensures out_after { out.new ≡ area_after (file_answer lengths.now table.now log.now width out.old) (sheet_of (fields_of table.now) (lines_of log.now) width) out.old }
{
    match log_load::busiest_file(lengths, table, log, width, out) {
        Ok(n) => n as i64,
        Err(refusal) => encode_turned(log_load::number(refusal.cause), refusal.place),
    }
}
