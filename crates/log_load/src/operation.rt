// The operation: the log is checked, then the width, then the room for the sheet, and then the sheet is written.
ghost use Rattle.std.specs.Prelude.{◌≡◌, ℕ, Ok};
ghost use Rattle.table_checks.specs.Checks.{Accepted};
ghost use Rattle.log_check.specs.Check.{lines_of};
ghost use Rattle.log_load.specs.Sheet.{sheet_of};
ghost use Rattle.log_load.specs.Answer.{refused_at, width_answer, busiest_answer, area_after};
ghost use Rattle.log_load.specs.Returns.{answer_returns, busiest_returns};
ghost use Rattle.log_load.specs.Meaning.{Says};
ghost use Rattle.log_load.specs.Log.{lines};

use crate::{Cause, Log, Refusal, sheet, stretch};
use table_checks::ROW;

// Writes the sheet of a log of the table, for stretches of `width` ticks. A refusal leaves the output as it is.
pub fn busiest(
    lengths: [[u32; 9]; 2],
    rows: &[u32],
    log: &[u8],
    width: u64,
    out: &mut [u8],
) -> Result<usize, Refusal>
    ensures value { result ≡ busiest_answer lengths rows.now log.now width out.old }
    ensures out_after { out.new ≡ area_after result (sheet_of rows.now (lines_of log.now) width) out.old }
    ensures says { (n : ℕ) → result ≡ Ok n → Says lengths rows.now log.now width n }
    ensures in_numbers { answer_returns result ≡ busiest_returns lengths rows.now log.now width out.old }
{
    log_check::check_log(lengths, rows, log)?;
    write_accepted(rows, &Log { text: log }, width, out)
}

// Writes the sheet of an accepted log.
pub fn write_accepted(rows: &[u32], log: &Log, width: u64, out: &mut [u8]) -> Result<usize, Refusal>
    requires { Accepted rows.now }
    ensures value { result ≡ width_answer rows.now (lines log.now) width out.old }
    ensures out_after { out.new ≡ area_after result (sheet_of rows.now (lines log.now) width) out.old }
{
    if width == 0 || log.last_end() < width {
        return refuse(Cause::Width);
    }
    let n = rows.len() / ROW;
    let size = sheet::FIRST + sheet::WIDE * n;
    if out.len() < size {
        return refuse(Cause::Log(log_check::Cause::Table(table_checks::Cause::OutputArea)));
    }
    let best = stretch::find(log, width);
    sheet::write_first(best, &mut out[0..23]);
    sheet::write_rows(rows, log, n, &mut out[23..size]);
    Ok(size)
}

fn refuse(cause: Cause) -> Result<usize, Refusal>
    ensures { result ≡ refused_at cause 0 }
{
    Err(Refusal { cause, place: 0 })
}
