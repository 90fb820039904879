// The entries for C that judge a row and list a table under the premise that faults begin at least so many ticks apart.
ghost use Rattle.std.specs.Prelude.{◌≡◌, length};
ghost use Rattle.certifier.specs.Encode.{encode_judged};
ghost use Rattle.certifier.specs.ExplainEntry.{encode_explained, shown_after};
ghost use Rattle.certifier.specs.FaultsEntry.{judge_faults_file, explain_faults_file};
ghost use Rattle.certifier.specs.FaultsListing.{listed_file, listed_returns, list_faults_returns};
ghost use Rattle.certifier.specs.LogEntry.{encode_answered};
ghost use Rattle.certifier.specs.Steps.{Countable};

use crate::encode::{encode_judged, encode_refusal};
use crate::explain_entry::show;
use crate::faults_listing::list_faults;
use bus_model::Judgement;
use row_judgement::{Refusal, explain_faults, judge_faults_accepted};

// Judges the claim of a row of the table, by the lengths, where faults begin at least `gap` ticks apart.
pub fn certifier_judge_faults(lengths: &[u8], table: &[u8], row: u64, gap: u64) -> i64
    ensures { result ≡ encode_judged (judge_faults_file lengths.now table.now row gap) }
{
    encode_judged(judge_faults_file(lengths, table, row, gap))
}

fn judge_faults_file(lengths: &[u8], table: &[u8], row: u64, gap: u64) -> Result<Judgement, Refusal>
    ensures { result ≡ judge_faults_file lengths.now table.now row gap }
{
    let mut rows = [0u32; table_checks::MOST_NUMBERS];
    let table = lengths_file::read_table(lengths, table, &mut rows)?;
    judge_faults_accepted(&table, row, gap)
}

// Judges the same, and shows the case that breaks the claim, if its verdict is 3.
pub fn certifier_explain_faults(
    lengths: &[u8],
    table: &[u8],
    row: u64,
    gap: u64,
    shown: &mut [u32],
) -> i64
    ensures value { result ≡ encode_explained (explain_faults_file lengths.now table.now row gap) (length shown.old) }
    ensures shown_after { shown.new ≡ shown_after (explain_faults_file lengths.now table.now row gap) shown.old }
{
    let mut rows = [0u32; table_checks::MOST_NUMBERS];
    match lengths_file::read_table(lengths, table, &mut rows) {
        Ok(table) => show(explain_faults(table.lengths, table.rows, row, gap), shown),
        Err(refusal) => encode_refusal(Refusal::from(refusal)),
    }
}

// Lists the judgements of the table, by the lengths, where faults begin at least `gap` ticks apart, and answers the listing's length. A refusal
// leaves the output as it is.
pub fn certifier_list_faults(lengths: &[u8], table: &[u8], gap: u64, out: &mut [u8]) -> i64
    ensures value { result ≡ encode_answered (list_faults_returns lengths.now table.now gap out.old) }
    ensures out_after { out.new ≡ listed_file lengths.now table.now gap out.old }
{
    encode_listed(list_faults(lengths, table, gap, out))
}

// How many bytes were written, or the refusal.
fn encode_listed(listed: Result<usize, Refusal>) -> i64
    requires { Countable listed }
    ensures { result ≡ encode_answered (listed_returns listed) }
{
    match listed {
        Ok(n) => n as i64,
        Err(refusal) => encode_refusal(refusal),
    }
}
