// The bound that decides about a row.
ghost use Rattle.std.specs.Prelude.{◌≡◌, ◌≤◌, ◌<◌, ◌/◌, length, MatchResult};
ghost use Rattle.bus_model.specs.Bounds.{blocking};
ghost use Rattle.bus_model.specs.Frame.{row};
ghost use Rattle.table_checks.specs.Table.{frames};
ghost use Rattle.table_checks.specs.Columns.{columns};
ghost use Rattle.table_checks.specs.Frames.{frames_of};
ghost use Rattle.workload.specs.Prepared.{table_of, Prepared};
ghost use Rattle.workload.specs.Faults.{cost_of, FineFaults};
ghost use Rattle.bounds.specs.Find.{bound_for};
ghost use Rattle.row_judgement.specs.declared.Cause.TheVariants.{NoSuchRow};

use crate::{Cause, Refusal};
use bounds::Bound;
use bus_model::Faults;
use greatest_work::{MEMORY, Setting};
use table_checks::Table;
use workload::{AREA, Target};

// Which row of an accepted table has the number, if there is one.
pub fn row_of(rows: &[u32], row: u64) -> Result<usize, Refusal>
    ensures { MatchResult result (λ i. (i ≡ row) × (row < length rows.now / columns)) (λ f. (length rows.now / columns ≤ row) × (f ≡ record { cause = NoSuchRow; place = 0 })) }
{
    if row < (rows.len() / table_checks::ROW) as u64 {
        Ok(row as usize)
    } else {
        Err(Refusal {
            cause: Cause::NoSuchRow,
            place: 0,
        })
    }
}

// Prepares the area for a row of an accepted table, and answers what is judged there, under a premise about faults.
pub fn prepare_row(table: &Table, i: usize, faults: Faults, prepared: &mut [u32]) -> Target
    requires { (i < length (frames table.now)) × (length prepared.old ≡ 320) }
    ensures prepared_after { table_of table.now.rows.now prepared.new ≡ frames table.now }
    ensures target { (result.frame ≡ row (frames table.now) i) × (result.faults ≡ faults) }
    ensures prepared { Prepared table.now.rows.now prepared.new result.frame × (result.blocked ≡ blocking (table_of table.now.rows.now prepared.new) result.frame) × (result.cost ≡ cost_of result.faults (table_of table.now.rows.now prepared.new) result.frame) }
{
    let k = table.frame(i);
    workload::prepare(table.lengths, table.rows, k, prepared);
    let blocked = workload::frame_blocking(table.rows, prepared, k);
    let cost = workload::fault_time(table.rows, prepared, faults, k);
    Target {
        frame: k,
        blocked,
        faults,
        cost,
    }
}

// The setting in which a row of an accepted table is judged, in an area that is lent for it.
pub fn pose_row<'a>(
    table: Table<'a>,
    i: usize,
    faults: Faults,
    prepared: &'a mut [u32; AREA],
) -> Setting<'a>
    requires i_in_bounds { i < length (frames table) }
    requires fine_faults { FineFaults faults }
    ensures frames_value { table_of result.rows.now result.prepared.now ≡ frames table.entry }
    ensures target { (result.target.frame ≡ row (frames table.entry) i) × (result.target.faults ≡ faults) }
{
    let target = prepare_row(&table, i, faults, prepared);
    Setting {
        rows: table.rows,
        prepared,
        target,
    }
}

// The bound of a row of an accepted table that decides about a claim, or, where there is none, the precise one.
pub fn decide(table: &Table, i: usize, faults: Faults, claim: Option<u32>) -> Bound
    requires i_in_bounds { i < length (frames table.now) }
    requires fine_faults { FineFaults faults }
    ensures { result ≡ bound_for faults (frames table.now) (row (frames table.now) i) claim }
{
    let mut prepared = [0u32; AREA];
    let mut memory = [0u64; MEMORY];
    let setting = pose_row(*table, i, faults, &mut prepared);
    bounds::find(&setting, claim, &mut memory)
}
