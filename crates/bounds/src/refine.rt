// The one search for the bounds: the open groups of a scenario are fixed one after the other, the target's own first, and then the others,
// rising; with one group fixed it finds the approximate bound, with all of them the precise one.
ghost use Rattle.std.specs.Prelude.{◌≡◌, false, ℕ, ◌-◌, ◌≤◌, max, ltb, set, Some};
ghost use Rattle.bus_model.specs.declared.Choice.TheVariants.{Fixed};
ghost use Rattle.bus_model.specs.Bounds.{busy_window};
ghost use Rattle.bus_model.specs.Judgement.{lacks_window};
ghost use Rattle.bus_model.specs.Theory.OpenGroups.{fixing_more};
ghost use Rattle.bus_model.specs.Theory.Refine.{free};
ghost use Rattle.bus_model.specs.Theory.Work.{RefinedBy};
ghost use Rattle.greatest_work.specs.Setting.{frames, Remembers};
ghost use Rattle.response_time.specs.Load.{OwnFixed, Reaches};
ghost use Rattle.bounds.specs.Search.{OwnOpen, Limits, Settles};

use crate::alignments::{is_last, next_of, next_open, with_choice};
use bus_model::Choice;
use greatest_work::Setting;
use response_time::{PATIENCE, busy_window, max_with_scenario, own_choice, reach_before, sweep};
use workload::GROUPS;

// Up to which instance it is not shown in the scenario as it is. Where it is not asked, it does not look.
fn reach_now(
    setting: &Setting,
    choices: [Choice; 16],
    reach: u32,
    best: u32,
    asked: bool,
    memory: &mut [u64],
) -> u32
    requires remembered { Remembers setting.now memory.old }
    requires own_fixed { OwnFixed setting.now.target.frame choices }
    requires reaches { Reaches setting.now.target.faults (frames setting.now) setting.now.target.frame choices best reach }
    ensures reaches { Reaches setting.now.target.faults (frames setting.now) setting.now.target.frame choices best result }
    ensures remembered { Remembers setting.now memory.new }
{
    if !asked {
        return reach;
    }
    sweep(setting, choices, reach, best, PATIENCE, memory)
}

// A group, and the alignment that it takes.
#[derive(Clone, Copy)]
struct Fixing {
    group: usize,
    alignment: u32,
}

// The greatest response so far, and up to which instance of a scenario it is not shown that its own is at most that.
#[derive(Clone, Copy)]
struct Known {
    best: u32,
    reach: u32,
}

// The greatest of `best` and the responses where a group takes an alignment, and `left` open groups more take each of theirs; or, where that exceeds
// `enough`, the first found that does. Where it is shown of all instances of that scenario that theirs is at most `best`, it is so with more groups
// fixed, and nothing is searched; where `best` has risen, that is asked again. A group with one alignment hands on what it was given: the next one
// would be asked the same. The scenario is made here and not by the caller, so that each level holds one and not two.
fn refine(
    setting: &Setting,
    coarser: [Choice; 16],
    fixing: Fixing,
    left: usize,
    known: Known,
    enough: u32,
    memory: &mut [u64],
) -> u32
    requires remembered { Remembers setting.now memory.old }
    requires le_group { (1 ≤ fixing.group) × (fixing.group ≤ 16) }
    requires own_fixed { OwnFixed setting.now.target.frame (set coarser (fixing.group - 1) (Fixed fixing.alignment)) }
    requires reaches { Reaches setting.now.target.faults (frames setting.now) setting.now.target.frame (set coarser (fixing.group - 1) (Fixed fixing.alignment)) known.best known.reach }
    ensures settles { Settles enough (max known.best (fixing_more setting.now.target.faults (frames setting.now) setting.now.target.frame left (set coarser (fixing.group - 1) (Fixed fixing.alignment)))) result }
    ensures remembered { Remembers setting.now memory.new }
{
    let choices = with_choice(coarser, fixing.group, fixing.alignment);
    let best = known.best;
    let reach = known.reach;
    let is_deepest = left == 0;
    if is_deepest {
        return max_with_scenario(setting, choices, reach, best, memory);
    }
    let k = setting.target.frame;
    let Some(group) = next_open(k, choices) else {
        return max_with_scenario(setting, choices, reach, best, memory);
    };
    let fewer = left - 1;
    let mut most = best;
    let mut a = next_of(setting.rows, setting.prepared, k, group, 0).unwrap_or(0);
    let mut asked = !is_last(setting.rows, setting.prepared, k, group, a);
    let mut rest = reach;
    // No range: the next alignment is looked for.
    'alignments: loop {
        rest = reach_now(setting, choices, rest, most, asked, memory);
        let is_shown = rest == 0;
        if is_shown {
            return most;
        }
        let finer = Fixing {
            group,
            alignment: a,
        };
        let so_far = Known {
            best: most,
            reach: rest,
        };
        let more = refine(setting, choices, finer, fewer, so_far, enough, memory);
        if enough < more {
            return more;
        }
        asked = most < more;
        most = more;
        let Some(b) = next_of(setting.rows, setting.prepared, k, group, a + 1) else {
            return most;
        };
        a = b;
    }
}

// How many instances are released before a limit of the scenario's window, of which nothing is shown at first: the limit given, or else the window.
fn reach_of(setting: &Setting, choices: [Choice; 16], limit: Option<u32>, memory: &mut [u64]) -> u32
    requires remembered { Remembers setting.now memory.old }
    requires limits { Limits setting.now.target.faults (frames setting.now) setting.now.target.frame choices limit }
    requires by_index { (l : ℕ) × (busy_window setting.now.target.faults (frames setting.now) setting.now.target.frame choices ≡ Some l) }
    ensures by_index { (best : ℕ) → Reaches setting.now.target.faults (frames setting.now) setting.now.target.frame choices best result }
    ensures remembered { Remembers setting.now memory.new }
{
    let end = match limit {
        Some(l) => l,
        None => busy_window(setting, choices, memory).unwrap_or(0),
    };
    reach_before(setting, choices, end)
}

// The same where the target's own group is still open: it takes each of its alignments, rising, but first the one at which the target itself is
// released: its response is mostly the greatest there, so that of most others it is shown at once that theirs is not greater. `limit`, where
// there is one, is not below any of their windows.
pub fn refine_own(
    setting: &Setting,
    choices: [Choice; 16],
    left: usize,
    best: u32,
    enough: u32,
    limit: Option<u32>,
    memory: &mut [u64],
) -> u32
    requires remembered { Remembers setting.now memory.old }
    requires own_open { OwnOpen (frames setting.now) setting.now.target.frame choices }
    requires limits { Limits setting.now.target.faults (frames setting.now) setting.now.target.frame choices limit }
    requires frame_value { (lacks_window setting.now.target.faults (frames setting.now) setting.now.target.frame ≡ false) × (1 ≤ left) }
    ensures settles { Settles enough (max best (fixing_more setting.now.target.faults (frames setting.now) setting.now.target.frame left choices)) result }
    ensures remembered { Remembers setting.now memory.new }
{
    let k = setting.target.frame;
    let own = k.group as usize;
    let fewer = left - 1;
    let mut most = best;
    let mut a = k.offset % k.period;
    let mut after: u32 = 0;
    // No range: the next alignment is looked for.
    loop {
        let finer = with_choice(choices, own, a);
        let reach = reach_of(setting, finer, limit, memory);
        let fixing = Fixing {
            group: own,
            alignment: a,
        };
        let known = Known { best: most, reach };
        most = refine(setting, choices, fixing, fewer, known, enough, memory);
        if enough < most {
            return most;
        }
        let Some(b) = next_of(setting.rows, setting.prepared, k, own, after) else {
            return most;
        };
        a = b;
        after = b + 1;
    }
}

// Whether some response exceeds the claim where, from any choices, all open groups take each of their alignments.
pub fn is_exceeded(setting: &Setting, choices: [Choice; 16], claim: u32, memory: &mut [u64]) -> bool
    requires remembered { Remembers setting.now memory.old }
    requires refined_by { RefinedBy (frames setting.now) setting.now.target.frame free choices }
    requires frame_value { lacks_window setting.now.target.faults (frames setting.now) setting.now.target.frame ≡ false }
    ensures value { result ≡ ltb claim (fixing_more setting.now.target.faults (frames setting.now) setting.now.target.frame 16 choices) }
    ensures remembered { Remembers setting.now memory.new }
{
    let Choice::Fixed(a) = own_choice(setting.target.frame, choices) else {
        return claim < refine_own(setting, choices, GROUPS, claim, claim, None, memory);
    };
    let reach = reach_of(setting, choices, None, memory);
    let k = setting.target.frame;
    let fixing = Fixing {
        group: k.group as usize,
        alignment: a,
    };
    let known = Known { best: claim, reach };
    claim < refine(setting, choices, fixing, GROUPS, known, claim, memory)
}
