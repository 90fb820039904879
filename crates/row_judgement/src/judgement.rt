// The judgement of a row.
ghost use Rattle.std.specs.Prelude.{◌≡◌, ◌<◌, true, false, T, pos, ◌-ℤ◌, length, Ok, MatchResult};
ghost use Rattle.bus_model.specs.Frame.{row};
ghost use Rattle.bus_model.specs.Bus.{MeetsClaim};
ghost use Rattle.bus_model.specs.declared.Judgement.{Judgement};
ghost use Rattle.bus_model.specs.Judgement.{verdict, judge, MarginSign};
ghost use Rattle.bus_model.specs.declared.Faults.TheVariants.{Never, Apart};
ghost use Rattle.table_checks.specs.Table.{frames};
ghost use Rattle.table_checks.specs.Frames.{frames_of};
ghost use Rattle.table_checks.specs.Returns.{loaded_returns};
ghost use Rattle.workload.specs.Faults.{FineFaults};
ghost use Rattle.row_judgement.specs.declared.Cause.TheVariants.{GapOutside};
ghost use Rattle.row_judgement.specs.Decide.{judged_by};
ghost use Rattle.row_judgement.specs.Judge.{claim_of, judge_row, is_gap, judge_faults, certified};
ghost use Rattle.row_judgement.specs.Returns.{judged_returns, judge_returns, judge_faults_returns};

use crate::decide::{decide, row_of};
use crate::{Cause, Refusal};
use bounds::Bound;
use bus_model::{Faults, Judgement, Outcome};
use table_checks::Table;

// Judges the claim of a row, by the lengths loaded. Where it certifies the frame, no instance of it is late, in any schedule. The
// margin is below zero exactly for verdicts 3 and 12.
pub fn judge(lengths: [[u32; 9]; 2], rows: &[u32], row: u64) -> Result<Judgement, Refusal>
    ensures value { result ≡ judge_row lengths rows.now row }
    ensures never_late { T (certified result) → MeetsClaim Never (frames_of lengths rows.now) row (claim_of rows.now row) }
    ensures margin_sign { (j : Judgement) → result ≡ Ok j → MarginSign j }
    ensures in_numbers { judged_returns result ≡ judge_returns (loaded_returns lengths rows.now) lengths rows.now row }
{
    let table = Table::check(lengths, rows)?;
    judge_accepted(&table, row)
}

// The same of an accepted table, by lengths that passed their check.
pub fn judge_accepted(table: &Table, row: u64) -> Result<Judgement, Refusal>
    ensures { result ≡ judge_row table.now.lengths table.now.rows.now row }
{
    let i = row_of(table.rows, row)?;
    Ok(judge_row(table, i, Faults::Never))
}

// Whether faults may begin so many ticks apart.
pub fn is_gap(gap: u64) -> bool
    ensures { result ≡ is_gap gap }
{
    (1 <= gap) & (gap <= 1000000)
}

// The premise that faults begin at least so many ticks apart.
pub fn premise_of(gap: u64) -> Result<Faults, Refusal>
    ensures { MatchResult result (λ faults. (is_gap gap ≡ true) × (faults ≡ Apart gap)) (λ f. (is_gap gap ≡ false) × (f ≡ record { cause = GapOutside; place = 0 })) }
{
    if is_gap(gap) {
        Ok(Faults::Apart(gap as u32))
    } else {
        Err(Refusal {
            cause: Cause::GapOutside,
            place: 0,
        })
    }
}

// Judges the claim of a row under the premise that faults begin at least so many ticks apart. Where it certifies the frame, no instance of it
// is late in any schedule with such faults: the transmission that none cuts ends within the claim.
pub fn judge_faults(
    lengths: [[u32; 9]; 2],
    rows: &[u32],
    row: u64,
    gap: u64,
) -> Result<Judgement, Refusal>
    ensures value { result ≡ judge_faults lengths rows.now row gap }
    ensures never_late { T (certified result) → MeetsClaim (Apart gap) (frames_of lengths rows.now) row (claim_of rows.now row) }
    ensures margin_sign { (j : Judgement) → result ≡ Ok j → MarginSign j }
    ensures in_numbers { judged_returns result ≡ judge_faults_returns (loaded_returns lengths rows.now) lengths rows.now row gap }
{
    let table = Table::check(lengths, rows)?;
    judge_faults_accepted(&table, row, gap)
}

// The same of an accepted table, by lengths that passed their check.
pub fn judge_faults_accepted(table: &Table, row: u64, gap: u64) -> Result<Judgement, Refusal>
    ensures { result ≡ judge_faults table.now.lengths table.now.rows.now row gap }
{
    let i = row_of(table.rows, row)?;
    let faults = premise_of(gap)?;
    Ok(judge_row(table, i, faults))
}

// The judgement of a row of an accepted table, under a premise about faults.
pub fn judge_row(table: &Table, i: usize, faults: Faults) -> Judgement
    requires i_in_bounds { i < length (frames table.now) }
    requires fine_faults { FineFaults faults }
    ensures { result ≡ judge faults (frames table.now) (row (frames table.now) i) (claim_of table.now.rows.now i) }
{
    let claim = table.rows[table_checks::ROW * i + table_checks::CLAIM];
    judged_by(decide(table, i, faults, Some(claim)), claim)
}

// The judgement of a claim by the bound that decides about it.
pub fn judged_by(bound: Bound, claim: u32) -> Judgement
    ensures { result ≡ judged_by claim bound }
{
    match bound {
        Bound::NoWindow => Judgement {
            outcome: Outcome::NoWindow,
            bound: 0,
            margin: 0,
        },
        Bound::Approximate(b) => judged(Outcome::CertifiedApproximate(b), b, claim),
        Bound::Level(b) => judged(Outcome::CertifiedLevel(b), b, claim),
        Bound::TooMany(b) => judged(Outcome::Undecided(b), b, claim),
        Bound::Precise(b) => {
            if b <= claim {
                judged(Outcome::CertifiedPrecise(b), b, claim)
            } else {
                judged(Outcome::ClaimTooSmall(b), b, claim)
            }
        }
    }
}

// An outcome beside the bound used and the margin.
fn judged(outcome: Outcome, bound: u32, claim: u32) -> Judgement
    ensures { result ≡ record { outcome = outcome; bound = bound; margin = pos claim -ℤ pos bound } }
{
    Judgement {
        outcome,
        bound,
        margin: claim as i64 - bound as i64,
    }
}

// The verdict's number in documents 01 and 02.
pub fn verdict(outcome: Outcome) -> u32
    ensures { result ≡ verdict outcome }
{
    match outcome {
        Outcome::CertifiedApproximate(_) => 1,
        Outcome::CertifiedPrecise(_) => 2,
        Outcome::ClaimTooSmall(_) => 3,
        Outcome::CertifiedLevel(_) => 4,
        Outcome::NoWindow => 11,
        Outcome::Undecided(_) => 12,
    }
}
