// The case that breaks a claim, found group by group: the first alignment of each group, rising, with which some response exceeds it.
ghost use Rattle.std.specs.Prelude.{◌≡◌, false, ◌+◌, ◌-◌, ◌≤◌, set};
ghost use Rattle.bus_model.specs.declared.Choice.TheVariants.{Fixed};
ghost use Rattle.bus_model.specs.Case.{first_case};
ghost use Rattle.bus_model.specs.Judgement.{lacks_window};
ghost use Rattle.greatest_work.specs.Setting.{frames, Remembers};
ghost use Rattle.bounds.specs.Case.{LeadsTo};

use crate::alignments::{next_of, with_choice};
use crate::refine::is_exceeded;
use bus_model::{Case, Choice};
use greatest_work::Setting;
use response_time::{busy_window, exceeding_instance};
use workload::GROUPS;

// The alignment of a group that leads on to the first case: the first with which some response exceeds the claim, whatever the open groups
// take. The last one is not tried: where there is a case, it is with that one.
fn first_exceeding(
    setting: &Setting,
    choices: [Choice; 16],
    group: usize,
    claim: u32,
    memory: &mut [u64],
) -> u32
    requires remembered { Remembers setting.now memory.old }
    requires leads_to { LeadsTo setting.now.target.faults (frames setting.now) setting.now.target.frame claim group choices }
    requires le_group { (1 ≤ group) × (group ≤ 16) × (lacks_window setting.now.target.faults (frames setting.now) setting.now.target.frame ≡ false) }
    ensures leads_to { LeadsTo setting.now.target.faults (frames setting.now) setting.now.target.frame claim (group + 1) (set choices (group - 1) (Fixed result)) }
    ensures remembered { Remembers setting.now memory.new }
{
    let k = setting.target.frame;
    let mut a = next_of(setting.rows, setting.prepared, k, group, 0).unwrap_or(0);
    // No range: the next alignment is looked for.
    loop {
        let Some(b) = next_of(setting.rows, setting.prepared, k, group, a + 1) else {
            return a;
        };
        let finer = with_choice(choices, group, a);
        if is_exceeded(setting, finer, claim, memory) {
            return a;
        }
        a = b;
    }
}

// The first scenario with a response above the claim, and the first instance there that has one.
pub fn first_case(setting: &Setting, claim: u32, memory: &mut [u64]) -> Option<Case>
    requires remembered { Remembers setting.now memory.old }
    requires frame_value { lacks_window setting.now.target.faults (frames setting.now) setting.now.target.frame ≡ false }
    ensures { result ≡ first_case setting.now.target.faults (frames setting.now) setting.now.target.frame claim }
{
    let mut choices = [Choice::Any; 16];
    let mut alignments = [0u32; 16];
    for i in 0..GROUPS {
        let a = first_exceeding(setting, choices, i + 1, claim, memory);
        choices[i] = Choice::Fixed(a);
        alignments[i] = a;
    }
    let window = busy_window(setting, choices, memory).unwrap_or(0);
    let instance = exceeding_instance(setting, choices, window, claim, memory)?;
    Some(Case {
        instance,
        alignments,
    })
}
