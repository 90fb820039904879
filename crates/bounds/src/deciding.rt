// The bound that decides about a claim.
ghost use Rattle.std.specs.Prelude.{◌≡◌, false, ◌<◌};
ghost use Rattle.bus_model.specs.Judgement.{lacks_window};
ghost use Rattle.bus_model.specs.Theory.Refine.{free};
ghost use Rattle.greatest_work.specs.Setting.{frames, Remembers};
ghost use Rattle.bounds.specs.Find.{meets, enough_for, decided_at, bound_for};
ghost use Rattle.bounds.specs.Search.{Limits};

use crate::Bound;
use crate::count::{LAST_LEVEL, deepest_level};
use crate::refine::refine_own;
use crate::windows::lacks_window;
use bus_model::Choice;
use greatest_work::Setting;
use response_time::busy_window;

// Whether the claim, if there is one, meets a bound.
fn is_met(claim: Option<u32>, bound: u32) -> bool
    ensures { result ≡ meets claim bound }
{
    claim.is_some_and(|c| bound <= c)
}

// Above what the bound of a level need not be searched further: the claim, if there is one; at the last level, whose bound is asked for whatever the
// claim, what no response exceeds.
fn enough_for(level: usize, claim: Option<u32>) -> Option<u32>
    ensures { result ≡ enough_for level claim }
{
    if level == LAST_LEVEL {
        Some(u32::MAX)
    } else {
        claim
    }
}

// The bound of a level, where it is the last or the claim meets it, and otherwise that the scenarios are too many, with the approximate bound.
// Before the last level nothing is searched without a claim.
fn by_level(
    setting: &Setting,
    level: usize,
    claim: Option<u32>,
    rough: u32,
    limit: Option<u32>,
    memory: &mut [u64],
) -> Bound
    requires remembered { Remembers setting.now memory.old }
    requires limits { Limits setting.now.target.faults (frames setting.now) setting.now.target.frame free limit }
    requires frame_value { (lacks_window setting.now.target.faults (frames setting.now) setting.now.target.frame ≡ false) × (level < 16) }
    ensures value { result ≡ decided_at setting.now.target.faults (frames setting.now) setting.now.target.frame level claim rough }
    ensures remembered { Remembers setting.now memory.new }
{
    let Some(enough) = enough_for(level, claim) else {
        return Bound::TooMany(rough);
    };
    let free = [Choice::Any; 16];
    let left = level + 1;
    let bound = refine_own(setting, free, left, 0, enough, limit, memory);
    if enough < bound {
        return Bound::TooMany(rough);
    }
    if level == LAST_LEVEL {
        return Bound::Precise(bound);
    }
    Bound::Level(bound)
}

// The bound that decides about the claim, or, where there is none, the precise one.
pub fn find(setting: &Setting, claim: Option<u32>, memory: &mut [u64]) -> Bound
    requires { Remembers setting.now memory.old }
    ensures value { result ≡ bound_for setting.now.target.faults (frames setting.now) setting.now.target.frame claim }
    ensures remembered { Remembers setting.now memory.new }
{
    let free = [Choice::Any; 16];
    let limit = busy_window(setting, free, memory);
    if lacks_window(setting, limit, memory) {
        return Bound::NoWindow;
    }
    let rough = refine_own(setting, free, 1, 0, u32::MAX, limit, memory);
    if is_met(claim, rough) {
        return Bound::Approximate(rough);
    }
    let level = deepest_level(setting.rows, setting.prepared, setting.target.frame);
    by_level(setting, level, claim, rough, limit, memory)
}
