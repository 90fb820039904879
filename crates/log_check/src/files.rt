// A log checked against the table in a file, by the lengths in another.
ghost use Rattle.std.specs.Prelude.{◌≡◌};
ghost use Rattle.log_check.specs.Check.{files_answer};
ghost use Rattle.log_check.specs.Verdict.{SaysOf};
ghost use Rattle.log_check.specs.Returns.{log_returns, files_returns};

use crate::{Refusal, check_text};
use table_checks::MOST_NUMBERS;

// Checks a log against the table in a file, by the lengths in another.
pub fn check_files(lengths: &[u8], table: &[u8], text: &[u8]) -> Result<[u64; 16], Refusal>
    ensures value { result ≡ files_answer lengths.now table.now text.now }
    ensures says { SaysOf lengths.now table.now text.now result }
    ensures in_numbers { log_returns result ≡ files_returns lengths.now table.now text.now }
{
    let mut rows = [0u32; MOST_NUMBERS];
    let table = lengths_file::read_table(lengths, table, &mut rows)?;
    check_text(&table, text)
}
