// Up to which instance of a scenario it is not shown that the response is at most `best`: it is shown of each from `reach` on. Where more groups
// are fixed, a start that shows it still does, and the window is no longer; so only the instances before `reach` need be looked at there.
ghost use Rattle.std.specs.Prelude.{ℕ};
ghost use Rattle.greatest_work.specs.Setting.{frames, Remembers};
ghost use Rattle.response_time.specs.Load.{OwnFixed, WindowWithin, Reaches};

use crate::instances::{FIRST, instances_before, pass_shown};
use bus_model::Choice;
use greatest_work::Setting;
use workload::{PLACES, PlacedFrame, Search, place};

// So many instances that it is not shown of does a sweep pass before it gives up: that only saves time.
pub const PATIENCE: u32 = 256;

// At first it is shown of none that is released before a limit of the window.
pub fn reach_before(setting: &Setting, choices: [Choice; 16], limit: u32) -> u32
    requires { WindowWithin setting.now.target.faults (frames setting.now) setting.now.target.frame choices limit }
    ensures { (best : ℕ) → Reaches setting.now.target.faults (frames setting.now) setting.now.target.frame choices best result }
{
    instances_before(setting.target.frame, choices, limit)
}

// One more than the last instance before `reach` that it is not shown of, 0 where it is shown of all; or `reach` itself, where more than `patience`
// of them are met.
pub fn sweep(
    setting: &Setting,
    choices: [Choice; 16],
    reach: u32,
    best: u32,
    patience: u32,
    memory: &mut [u64],
) -> u32
    requires remembered { Remembers setting.now memory.old }
    requires own_fixed { OwnFixed setting.now.target.frame choices }
    requires reaches { Reaches setting.now.target.faults (frames setting.now) setting.now.target.frame choices best reach }
    ensures reaches { Reaches setting.now.target.faults (frames setting.now) setting.now.target.frame choices best result }
    ensures remembered { Remembers setting.now memory.new }
{
    let mut area = [PlacedFrame::NONE; PLACES];
    let first = Search::Instance(0);
    let to = place(
        setting.rows,
        setting.prepared,
        setting.target,
        first,
        choices,
        &mut area,
    );
    let placed = &area[0..to];
    let mut last = 0;
    let mut missed = 0;
    let mut next = FIRST.next;
    // No range: the next instance is the one that is not shown.
    loop {
        next = pass_shown(setting, choices, next, reach, best, placed, memory);
        if next.q == reach {
            return last;
        }
        if patience <= missed {
            return reach;
        }
        missed += 1;
        next.q += 1;
        last = next.q;
    }
}
