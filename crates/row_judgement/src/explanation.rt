// The judgement of a row with the case that breaks its claim.
ghost use Rattle.std.specs.Prelude.{ℕ, ◌≡◌, ◌<◌, ◌/◌, true, T, length, Ok, Err, MatchResult};
ghost use Rattle.bus_model.specs.Frame.{row};
ghost use Rattle.bus_model.specs.Bus.{MeetsClaim};
ghost use Rattle.bus_model.specs.Judgement.{judge};
ghost use Rattle.bus_model.specs.declared.Faults.TheVariants.{Never, Apart};
ghost use Rattle.table_checks.specs.Table.{frames};
ghost use Rattle.table_checks.specs.Columns.{columns};
ghost use Rattle.table_checks.specs.Frames.{frames_of};
ghost use Rattle.table_checks.specs.Checks.{loaded_check};
ghost use Rattle.table_checks.specs.Returns.{loaded_returns};
ghost use Rattle.workload.specs.Faults.{FineFaults};
ghost use Rattle.row_judgement.specs.Judge.{claim_of, judge_row, is_gap, judge_faults, certified};
ghost use Rattle.row_judgement.specs.Explain.{beside, explain_row, explain_faults, explained_returns, explain_returns, explain_faults_returns};

use crate::decide::{pose_row, row_of};
use crate::judgement::{judged_by, premise_of, verdict};
use crate::{Explained, Refusal};
use bus_model::Faults;
use greatest_work::MEMORY;
use table_checks::Table;
use workload::AREA;

// Judges the claim of a row, by the lengths loaded, and finds the case that breaks it, where it is too small.
pub fn explain(lengths: [[u32; 9]; 2], rows: &[u32], row: u64) -> Explained
    ensures value { result ≡ explain_row lengths rows.now row }
    ensures never_late { T (certified result.judged) → MeetsClaim Never (frames_of lengths rows.now) row (claim_of rows.now row) }
    ensures in_numbers { explained_returns result ≡ explain_returns (loaded_returns lengths rows.now) lengths rows.now row }
{
    match explained(lengths, rows, row) {
        Ok(answer) => answer,
        Err(refusal) => Explained {
            judged: Err(refusal),
            breaking: None,
        },
    }
}

// The same under the premise that faults begin at least so many ticks apart.
pub fn explain_faults(lengths: [[u32; 9]; 2], rows: &[u32], row: u64, gap: u64) -> Explained
    ensures value { result ≡ explain_faults lengths rows.now row gap }
    ensures never_late { T (certified result.judged) → MeetsClaim (Apart gap) (frames_of lengths rows.now) row (claim_of rows.now row) }
    ensures in_numbers { explained_returns result ≡ explain_faults_returns (loaded_returns lengths rows.now) lengths rows.now row gap }
{
    match explained_under(lengths, rows, row, gap) {
        Ok(answer) => answer,
        Err(refusal) => Explained {
            judged: Err(refusal),
            breaking: None,
        },
    }
}

// The same, with what is turned back apart.
fn explained(lengths: [[u32; 9]; 2], rows: &[u32], row: u64) -> Result<Explained, Refusal>
    ensures { MatchResult result (λ e. e ≡ beside Never lengths rows.now row (judge_row lengths rows.now row)) (λ f. judge_row lengths rows.now row ≡ Err f) }
{
    let table = Table::check(lengths, rows)?;
    let i = row_of(table.rows, row)?;
    Ok(explain_row(&table, i, Faults::Never))
}

// The same under the premise.
fn explained_under(
    lengths: [[u32; 9]; 2],
    rows: &[u32],
    row: u64,
    gap: u64,
) -> Result<Explained, Refusal>
    ensures { MatchResult result (λ e. e ≡ beside (Apart gap) lengths rows.now row (judge_faults lengths rows.now row gap)) (λ f. judge_faults lengths rows.now row gap ≡ Err f) }
{
    let table = Table::check(lengths, rows)?;
    let i = row_of(table.rows, row)?;
    let faults = premise_of(gap)?;
    Ok(explain_row(&table, i, faults))
}

// The judgement of a row of an accepted table, with its case. What is prepared and remembered for the judgement serves the search for the case.
fn explain_row(table: &Table, i: usize, faults: Faults) -> Explained
    requires i_in_bounds { i < length (frames table.now) }
    requires fine_faults { FineFaults faults }
    ensures { result ≡ beside faults table.now.lengths table.now.rows.now i (Ok (judge faults (frames table.now) (row (frames table.now) i) (claim_of table.now.rows.now i))) }
{
    let claim = table.rows[table_checks::ROW * i + table_checks::CLAIM];
    let mut prepared = [0u32; AREA];
    let mut memory = [0u64; MEMORY];
    let setting = pose_row(*table, i, faults, &mut prepared);
    let bound = bounds::find(&setting, Some(claim), &mut memory);
    let judgement = judged_by(bound, claim);
    let is_small = verdict(judgement.outcome) == 3;
    let breaking = if is_small {
        bounds::first_case(&setting, claim, &mut memory)
    } else {
        None
    };
    Explained {
        judged: Ok(judgement),
        breaking,
    }
}
