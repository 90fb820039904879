// The worst case of a row.
ghost use Rattle.std.specs.Prelude.{◌≡◌, ◌<◌, length};
ghost use Rattle.bus_model.specs.Frame.{row};
ghost use Rattle.table_checks.specs.Table.{frames};
ghost use Rattle.row_judgement.specs.Judge.{bound_frame};
ghost use Rattle.worst_case.specs.Answer.{worst_bounded, worst_row};
ghost use Rattle.worst_case.specs.Steps.{CaseWithin, case_shown};

use crate::WorstCase;
use crate::last::all_early;
use crate::starts::{alignment_of, instance_from, starts_of};
use bounds::Bound;
use bus_model::{Case, Faults, Frame};
use greatest_work::MEMORY;
use row_judgement::pose_row;
use table_checks::Table;
use workload::AREA;

// The worst case of a row of an accepted table, as far as it is shown.
pub fn worst_row(table: &Table, i: usize) -> Option<WorstCase>
    requires { i < length (frames table.now) }
    ensures { result ≡ worst_row (frames table.now) i }
{
    if all_early(table) {
        worst_bounded(table, i)
    } else {
        None
    }
}

// The same where every offset is below its period. What is prepared and remembered for the bound serves the search for the case.
fn worst_bounded(table: &Table, i: usize) -> Option<WorstCase>
    requires { i < length (frames table.now) }
    ensures { result ≡ worst_bounded (frames table.now) (row (frames table.now) i) (bound_frame (frames table.now) i) }
{
    let mut prepared = [0u32; AREA];
    let mut memory = [0u64; MEMORY];
    let setting = pose_row(*table, i, Faults::Never, &mut prepared);
    let Bound::Precise(bound) = bounds::find(&setting, None, &mut memory) else {
        return None;
    };
    let case = bounds::first_case(&setting, bound - 1, &mut memory)?;
    Some(show(case, setting.target.frame, bound))
}

// The starts and the instance by a case whose response is the bound.
fn show(case: Case, frame: Frame, bound: u32) -> WorstCase
    requires { CaseWithin case.alignments case.instance frame }
    ensures { result ≡ case_shown case.alignments case.instance frame bound }
{
    let own = alignment_of(case.alignments, frame.group);
    WorstCase {
        response: bound,
        instance: instance_from(frame, own, case.instance),
        starts: starts_of(case.alignments),
    }
}
