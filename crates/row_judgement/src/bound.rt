// The precise bound of a row.
ghost use Rattle.std.specs.Prelude.{◌≡◌};
ghost use Rattle.table_checks.specs.Returns.{loaded_returns};
ghost use Rattle.row_judgement.specs.Judge.{bound_row};
ghost use Rattle.row_judgement.specs.Decide.{bounded_by};
ghost use Rattle.row_judgement.specs.Returns.{bounded_returns, bound_returns};

use crate::decide::{decide, row_of};
use crate::{Cause, Refusal};
use bounds::Bound;
use bus_model::Faults;
use table_checks::Table;

// The precise bound of a row, by the lengths loaded.
pub fn precise_bound(lengths: [[u32; 9]; 2], rows: &[u32], row: u64) -> Result<u32, Refusal>
    ensures value { result ≡ bound_row lengths rows.now row }
    ensures in_numbers { bounded_returns result ≡ bound_returns (loaded_returns lengths rows.now) lengths rows.now row }
{
    let table = Table::check(lengths, rows)?;
    bound_accepted(&table, row)
}

// The same of an accepted table, by lengths that passed their check.
pub fn bound_accepted(table: &Table, row: u64) -> Result<u32, Refusal>
    ensures { result ≡ bound_row table.now.lengths table.now.rows.now row }
{
    let i = row_of(table.rows, row)?;
    let bound = decide(table, i, Faults::Never, None);
    bounded(bound, i as u32)
}

// The answer for a row by the bound that was found without a claim.
fn bounded(bound: Bound, i: u32) -> Result<u32, Refusal>
    ensures { result ≡ bounded_by i bound }
{
    match bound {
        Bound::NoWindow => Err(Refusal {
            cause: Cause::NoWindow,
            place: i,
        }),
        Bound::Approximate(b) => Ok(b),
        Bound::Level(b) => Ok(b),
        Bound::TooMany(_) => Err(Refusal {
            cause: Cause::TooManyScenarios,
            place: i,
        }),
        Bound::Precise(b) => Ok(b),
    }
}
