// The listing of a table under the premise that faults begin at least so many ticks apart.
ghost use Rattle.std.specs.Prelude.{◌≡◌};
ghost use Rattle.certifier.specs.FaultsListing.{list_faults_file, listed_file, listed_returns, list_faults_returns};

use crate::listing::list_rows;
use row_judgement::{Refusal, premise_of};

// Lists the judgements of the table in a file, by the lengths in another, where faults begin at least `gap` ticks apart. A refusal leaves the
// output as it is.
pub fn list_faults(lengths: &[u8], table: &[u8], gap: u64, out: &mut [u8]) -> Result<usize, Refusal>
    ensures value { result ≡ list_faults_file lengths.now table.now gap out.old }
    ensures out_after { out.new ≡ listed_file lengths.now table.now gap out.old }
    ensures in_numbers { listed_returns result ≡ list_faults_returns lengths.now table.now gap out.old }
{
    let mut rows = [0u32; table_checks::MOST_NUMBERS];
    let table = lengths_file::read_table(lengths, table, &mut rows)?;
    let faults = premise_of(gap)?;
    Ok(list_rows(&table, faults, out)?)
}
