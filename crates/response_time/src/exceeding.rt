// The first instance of a scenario whose response exceeds a claim.
ghost use Rattle.std.specs.Prelude.{◌≡◌, Some};
ghost use Rattle.bus_model.specs.Bounds.{busy_window};
ghost use Rattle.bus_model.specs.Case.{exceeding_instance};
ghost use Rattle.greatest_work.specs.Setting.{frames, Remembers};
ghost use Rattle.response_time.specs.Load.{OwnFixed};

use crate::instances::{FIRST, instances_before, next_met};
use bus_model::Choice;
use greatest_work::Setting;
use workload::{PLACES, PlacedFrame, Search, place};

// The first instance released in the scenario's busy window whose response exceeds the claim, counted from 1. Those that are shown not to
// exceed it are passed over.
pub fn exceeding_instance(
    setting: &Setting,
    choices: [Choice; 16],
    window: u32,
    claim: u32,
    memory: &mut [u64],
) -> Option<u32>
    requires remembered { Remembers setting.now memory.old }
    requires own_fixed { OwnFixed setting.now.target.frame choices }
    requires choices_value { busy_window setting.now.target.faults (frames setting.now) setting.now.target.frame choices ≡ Some window }
    ensures value { result ≡ exceeding_instance setting.now.target.faults (frames setting.now) setting.now.target.frame claim choices }
    ensures remembered { Remembers setting.now memory.new }
{
    let instances = instances_before(setting.target.frame, choices, window);
    let mut area = [PlacedFrame::NONE; PLACES];
    let first = Search::Instance(0);
    let to = place(
        setting.rows,
        setting.prepared,
        setting.target,
        first,
        choices,
        &mut area,
    );
    let placed = &area[0..to];
    let mut turn = FIRST;
    while let Some(met) = next_met(setting, choices, turn, instances, claim, placed, memory) {
        if claim < met.response {
            return Some(met.turn.next.q);
        }
        turn = met.turn;
    }
    None
}
