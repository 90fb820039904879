// The alignments of a group, one after the other, and which group takes its alignments next.
ghost use Rattle.std.specs.Prelude.{◌≡◌, ◌+◌, ◌-◌, ◌≤◌, ◌<◌, set, is_none};
ghost use Rattle.arith.specs.Least.{least};
ghost use Rattle.bus_model.specs.declared.Choice.TheVariants.{Fixed};
ghost use Rattle.bus_model.specs.Theory.OpenGroups.{next_open};
ghost use Rattle.bus_model.specs.Theory.Visits.{is_alignment};
ghost use Rattle.bus_model.specs.Theory.Turns.{turn};
ghost use Rattle.workload.specs.Prepared.{Fine, Prepared, table_of};

use alignment_walk::next_alignment;
use bus_model::{Choice, Frame};
use response_time::{is_open, own_choice};
use workload::{cycle_of, part_of};

// The choices with the alignment of one group more.
pub fn with_choice(choices: [Choice; 16], group: usize, a: u32) -> [Choice; 16]
    requires { (1 ≤ group) × (group ≤ 16) }
    ensures { result ≡ set choices (group - 1) (Fixed a) }
{
    let at = group - 1;
    let mut next = choices;
    next[at] = Choice::Fixed(a);
    next
}

// The group that is fixed next: k's own where it is open, and otherwise the least open one.
pub fn next_open(k: Frame, choices: [Choice; 16]) -> Option<usize>
    requires { Fine k }
    ensures { result ≡ next_open k choices }
{
    if is_open(own_choice(k, choices)) {
        return Some(k.group as usize);
    }
    for (j, choice) in choices.iter().enumerate() {
        if is_open(*choice) {
            return Some(j + 1);
        }
    }
    None
}

// The first alignment of a group at or after a tick, in its first cycle: nothing new comes after it (`visits-again`, alignment_walk Laws/Walk; `more_turn`,
// bus_model Theory/OpenGroups).
pub fn next_of(rows: &[u32], prepared: &[u32], k: Frame, group: usize, after: u32) -> Option<u32>
    requires prepared { Prepared rows.now prepared.now k }
    requires le_group { (1 ≤ group) × (group ≤ 16) × (after ≤ turn (table_of rows.now prepared.now) k group) }
    ensures { result ≡ least (is_alignment (table_of rows.now prepared.now) k group) (turn (table_of rows.now prepared.now) k group - after) after }
{
    let at = group - 1;
    let part = part_of(prepared, at);
    next_alignment(rows, prepared, part, after, cycle_of(prepared, at))
}

// Whether a group has no alignment after a, in its first cycle. Where that is its first, nothing is left to choose.
pub fn is_last(rows: &[u32], prepared: &[u32], k: Frame, group: usize, a: u32) -> bool
    requires prepared { Prepared rows.now prepared.now k }
    requires le_group { (1 ≤ group) × (group ≤ 16) × (a < turn (table_of rows.now prepared.now) k group) }
    ensures { result ≡ is_none (least (is_alignment (table_of rows.now prepared.now) k group) (turn (table_of rows.now prepared.now) k group - (a + 1)) (a + 1)) }
{
    next_of(rows, prepared, k, group, a + 1).is_none()
}
