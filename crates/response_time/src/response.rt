// The response times of the target in a scenario.
ghost use Rattle.std.specs.Prelude.{◌≡◌, max, Some};
ghost use Rattle.bus_model.specs.Bounds.{busy_window, response_time, scenario_response};
ghost use Rattle.greatest_work.specs.Setting.{frames, Remembers};
ghost use Rattle.response_time.specs.Load.{OwnFixed, Reaches};

use crate::instances::{FIRST, instances_before, next_met};
use crate::reach::sweep;
use crate::search::busy_window;
use bus_model::Choice;
use greatest_work::Setting;
use workload::{PLACES, PlacedFrame, Search, place};

// The greater of `best` and the responses of the instances released in the scenario's busy window. An instance that is shown to have no
// greater response than the greatest so far is passed over.
fn max_with_window(
    setting: &Setting,
    choices: [Choice; 16],
    window: u32,
    best: u32,
    memory: &mut [u64],
) -> u32
    requires remembered { Remembers setting.now memory.old }
    requires own_fixed { OwnFixed setting.now.target.frame choices }
    requires choices_value { busy_window setting.now.target.faults (frames setting.now) setting.now.target.frame choices ≡ Some window }
    ensures value { result ≡ max best (response_time setting.now.target.faults (frames setting.now) setting.now.target.frame choices window) }
    ensures remembered { Remembers setting.now memory.new }
{
    let instances = instances_before(setting.target.frame, choices, window);
    let mut area = [PlacedFrame::NONE; PLACES];
    let first = Search::Instance(0);
    let to = place(
        setting.rows,
        setting.prepared,
        setting.target,
        first,
        choices,
        &mut area,
    );
    let placed = &area[0..to];
    let mut most = best;
    let mut turn = FIRST;
    while let Some(met) = next_met(setting, choices, turn, instances, most, placed, memory) {
        most = most.max(met.response);
        turn = met.turn;
    }
    most
}

// The greater of `best` and the scenario's response. Where it is shown of all instances before `reach` that theirs is not greater, nothing is
// searched.
pub fn max_with_scenario(
    setting: &Setting,
    choices: [Choice; 16],
    reach: u32,
    best: u32,
    memory: &mut [u64],
) -> u32
    requires remembered { Remembers setting.now memory.old }
    requires own_fixed { OwnFixed setting.now.target.frame choices }
    requires reaches { Reaches setting.now.target.faults (frames setting.now) setting.now.target.frame choices best reach }
    ensures value { result ≡ max best (scenario_response setting.now.target.faults (frames setting.now) setting.now.target.frame choices) }
    ensures remembered { Remembers setting.now memory.new }
{
    if reach == 0 {
        return best;
    }
    if sweep(setting, choices, reach, best, 0, memory) == 0 {
        return best;
    }
    let Some(window) = busy_window(setting, choices, memory) else {
        return best;
    };
    max_with_window(setting, choices, window, best, memory)
}
