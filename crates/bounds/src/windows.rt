// Whether the scenarios of the approximate bound have busy windows.
ghost use Rattle.std.specs.Prelude.{◌≡◌};
ghost use Rattle.bus_model.specs.Bounds.{busy_window};
ghost use Rattle.bus_model.specs.Judgement.{lacks_window};
ghost use Rattle.bus_model.specs.Theory.Refine.{free};
ghost use Rattle.greatest_work.specs.Setting.{frames, Remembers};

use crate::alignments::{next_of, with_choice};
use bus_model::Choice;
use greatest_work::Setting;
use response_time::busy_window;

// Whether some alignment of the target's own group has no busy window, every other group being open. Where there is one with all
// groups open, each has one, and none is longer.
pub fn lacks_window(setting: &Setting, limit: Option<u32>, memory: &mut [u64]) -> bool
    requires remembered { Remembers setting.now memory.old }
    requires limit_value { limit ≡ busy_window setting.now.target.faults (frames setting.now) setting.now.target.frame free }
    ensures value { result ≡ lacks_window setting.now.target.faults (frames setting.now) setting.now.target.frame }
    ensures remembered { Remembers setting.now memory.new }
{
    if limit.is_some() {
        return false;
    }
    let k = setting.target.frame;
    let own = k.group as usize;
    let mut a = next_of(setting.rows, setting.prepared, k, own, 0).unwrap_or(0);
    // No range: the next alignment is looked for.
    'alignments: loop {
        let choices = with_choice([Choice::Any; 16], own, a);
        if busy_window(setting, choices, memory).is_none() {
            return true;
        }
        let Some(b) = next_of(setting.rows, setting.prepared, k, own, a + 1) else {
            return false;
        };
        a = b;
    }
}
