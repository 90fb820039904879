// The worst case of the frame that ranks last: the starts of the groups with which its precise bound is reached to the tick, where all
// transmissions have their largest lengths, and the instance whose response it is. It takes any input, and checks its lengths and its table
// itself; last_row and worst_row take accepted ones.
#![tactic(auto)]

mod last;
mod row;
mod starts;

ghost use Rattle.std.specs.Prelude.{◌≡◌, Some};
ghost use Rattle.bus_model.specs.Worst.{last_row, for_group, Responds};
ghost use Rattle.table_checks.specs.Frames.{frames_of};
ghost use Rattle.table_checks.specs.Returns.{loaded_returns};
ghost use Rattle.row_judgement.specs.Returns.{judged_returns, judge_returns};
ghost use Rattle.worst_case.specs.declared.WorstCase.{WorstCase};
ghost use Rattle.worst_case.specs.Answer.{judged_last, worst_of};

use bus_model::{Faults, Judgement};
pub use last::last_row;
pub use row::worst_row;
use row_judgement::Refusal;
use table_checks::Table;

// The starts of groups 1 to 16, the instance, from 0, and its response.
#[derive(Clone, Copy)]
pub struct WorstCase {
    pub response: u32,
    pub instance: u32,
    pub starts: [u32; 16],
}

// What judging the last frame's row answers, and its worst case, where one is shown.
#[derive(Clone, Copy)]
pub struct LastFrame {
    pub judged: Result<Judgement, Refusal>,
    pub worst: Option<WorstCase>,
}

// Judges the claim of the frame that ranks last, by the lengths loaded, and finds its worst case, where its precise bound can be had and
// every offset is below its period. The response that is shown is reached in some schedule with these starts.
pub fn worst(lengths: [[u32; 9]; 2], rows: &[u32]) -> LastFrame
    ensures value { result ≡ worst_of lengths rows.now }
    ensures reached { (w : WorstCase) → result.worst ≡ Some w → Responds (frames_of lengths rows.now) (for_group w.starts) (last_row (frames_of lengths rows.now)) w.instance w.response }
    ensures in_numbers { judged_returns result.judged ≡ judge_returns (loaded_returns lengths rows.now) lengths rows.now (last_row (frames_of lengths rows.now)) }
{
    match Table::check(lengths, rows) {
        Ok(table) => worst_of_rows(&table),
        Err(refusal) => LastFrame {
            judged: Err(Refusal::from(refusal)),
            worst: None,
        },
    }
}

// The same for the rows of an accepted table.
fn worst_of_rows(table: &Table) -> LastFrame
    ensures { result ≡ judged_last table.now.lengths table.now.rows.now }
{
    let i = last_row(table);
    LastFrame {
        judged: Ok(row_judgement::judge_row(table, i, Faults::Never)),
        worst: worst_row(table, i),
    }
}
