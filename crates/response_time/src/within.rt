// A start w ≤ latest whose load is at most w proves that the response is at most `best`: some starts are looked at once and, where none of
// these shows it, one is searched for.
ghost use Rattle.std.specs.Prelude.{◌≡◌, ℕ, ◌+◌, ◌*◌, ◌≤◌, ◌<◌, IfSome};
ghost use Rattle.bus_model.specs.Bounds.{own_distance};
ghost use Rattle.workload.specs.declared.Search.TheVariants.{Instance};
ghost use Rattle.workload.specs.Placed.{placed_in, placed_out, FinePlaced};
ghost use Rattle.greatest_work.specs.Setting.{frames, Remembers};
ghost use Rattle.response_time.specs.Load.{Asked, latest_start, Shows, ShowsPlaced, ShownWithin};

use crate::search::{WINDOW_LIMIT, fixed_point, is_open, load, own_distance, waits_of};
use bus_model::Choice;
use greatest_work::Setting;
use workload::{PlacedFrame, Search, placed_work};

// So many steps does a climb take that is only to save visits.
const STEPS: usize = 16;

// A start, and of how many instances it shows it: the one at hand, and those after it.
#[derive(Clone, Copy)]
struct Shown {
    start: u32,
    count: u32,
}

// Which instance is next, and where to climb from for a start that shows its response to be small.
#[derive(Clone, Copy)]
pub struct Next {
    pub q: u32,
    pub near: u32,
}

// The latest start below the window's limit with a response of `best` at the most, for a release at a tick.
fn latest_start(best: u32, length: u32, released: u32) -> Option<u32>
    requires { released ≤ 1000000 }
    ensures { result ≡ latest_start best length released }
{
    let end = best as u64 + released as u64;
    let start = end.checked_sub(length as u64)?;
    Some(start.min(WINDOW_LIMIT as u64 - 1) as u32)
}

// The instances that a start shows it of: as many as loads, each more than the one before by a length, are at most x.
fn shown_by_load(load: u64, length: u32, x: u32) -> Option<Shown>
    requires { (1 ≤ length) × (x ≤ 1000000) }
    ensures shows { IfSome result (λ s. (s.start ≡ x) × ((i : ℕ) → i < s.count → load + i * length ≤ x)) }
    ensures some { IfSome result (λ s. (1 ≤ s.count) × (s.count ≤ 1000001)) }
{
    let rest = (x as u64).checked_sub(load)?;
    Some(Shown {
        start: x,
        count: rest as u32 / length + 1,
    })
}

// Looks at a start by its load, unless it is after the latest.
fn shown_at(
    setting: &Setting,
    choices: [Choice; 16],
    q: u32,
    x: u32,
    latest: u32,
    memory: &mut [u64],
) -> Option<Shown>
    requires remembered { Remembers setting.now memory.old }
    requires asked { Asked setting.now.target.frame choices (Instance q) }
    requires latest_bound { latest ≤ 1000000 }
    ensures shows { IfSome result (λ s. Shows setting.now.target.faults (frames setting.now) setting.now.target.frame choices q latest s.start s.count) }
    ensures some { IfSome result (λ s. (1 ≤ s.count) × (s.count ≤ 1000001)) }
    ensures remembered { Remembers setting.now memory.new }
{
    if x > latest {
        return None;
    }
    let needed = load(setting, choices, Search::Instance(q), x, memory);
    shown_by_load(needed, setting.target.frame.length, x)
}

// Climbs from a number on by the work of placed frames, which costs little: where a start holds that, it holds its load.
// Not by `climb`: it takes so many steps at most, and tells of how many instances a start shows it.
fn climb_above(
    placed: &[PlacedFrame],
    length: u32,
    base: u64,
    from: u32,
    latest: u32,
) -> Option<Shown>
    requires fine_placed { FinePlaced (placed_in placed.now) }
    requires in_bounds { (1 ≤ length) × (base ≤ 1000000000) × (latest ≤ 1000000) }
    ensures shows_placed { IfSome result (λ s. ShowsPlaced (placed_in placed.now) length base latest s.start s.count) }
    ensures some { IfSome result (λ s. (1 ≤ s.count) × (s.count ≤ 1000001)) }
{
    let mut x = from;
    for _ in 0..STEPS {
        if latest < x {
            return None;
        }
        let needed = base + placed_work(placed, x + 1);
        let shown = shown_by_load(needed, length, x);
        if shown.is_some() {
            return shown;
        }
        if (latest as u64) < needed {
            return None;
        }
        x = needed as u32;
    }
    None
}

// Whether some group is open.
fn has_open(choices: [Choice; 16]) -> bool {
    choices.iter().any(|choice| is_open(*choice))
}

// A start by `latest`, as far as some that are tried tell. Where a group is open, the work of the placed frames is tried before
// the loads themselves, for which all alignments are visited.
fn shown_tried(
    setting: &Setting,
    choices: [Choice; 16],
    q: u32,
    from: u32,
    latest: u32,
    placed: &[PlacedFrame],
    memory: &mut [u64],
) -> Option<Shown>
    requires remembered { Remembers setting.now memory.old }
    requires asked { Asked setting.now.target.frame choices (Instance q) }
    requires latest_bound { latest ≤ 1000000 }
    requires placed_value { placed_in placed.now ≡ placed_out (frames setting.now) setting.now.target (Instance q) choices }
    ensures shows { IfSome result (λ s. Shows setting.now.target.faults (frames setting.now) setting.now.target.frame choices q latest s.start s.count) }
    ensures some { IfSome result (λ s. (1 ≤ s.count) × (s.count ≤ 1000001)) }
    ensures remembered { Remembers setting.now memory.new }
{
    let k = setting.target.frame;
    let base = waits_of(setting.target, Search::Instance(q));
    let last = climb_above(placed, k.length, base, latest, latest);
    if last.is_some() || !has_open(choices) {
        return last;
    }
    let climbed = climb_above(placed, k.length, base, from, latest);
    if climbed.is_some() {
        return climbed;
    }
    shown_at(setting, choices, q, latest, latest, memory)
}

// A start by `latest`: one that is tried, or else the first one from a number on.
fn shown_by(
    setting: &Setting,
    choices: [Choice; 16],
    q: u32,
    from: u32,
    latest: u32,
    placed: &[PlacedFrame],
    memory: &mut [u64],
) -> Option<Shown>
    requires remembered { Remembers setting.now memory.old }
    requires asked { Asked setting.now.target.frame choices (Instance q) }
    requires latest_bound { latest ≤ 1000000 }
    requires placed_value { placed_in placed.now ≡ placed_out (frames setting.now) setting.now.target (Instance q) choices }
    ensures shows { IfSome result (λ s. Shows setting.now.target.faults (frames setting.now) setting.now.target.frame choices q latest s.start s.count) }
    ensures some { IfSome result (λ s. (1 ≤ s.count) × (s.count ≤ 1000001)) }
    ensures remembered { Remembers setting.now memory.new }
{
    let tried = shown_tried(setting, choices, q, from, latest, placed, memory);
    if tried.is_some() {
        return tried;
    }
    let search = Search::Instance(q);
    let end = latest + 1;
    let x = fixed_point(setting, choices, search, from, end, memory)?;
    shown_at(setting, choices, q, x, latest, memory)
}

// The instance after those from the next one on that are shown to have a response of `best` at the most, where some are. The climb goes on
// from the start that shows it, unless that is just the latest.
pub fn shown_within(
    setting: &Setting,
    choices: [Choice; 16],
    next: Next,
    best: u32,
    placed: &[PlacedFrame],
    memory: &mut [u64],
) -> Option<Next>
    requires remembered { Remembers setting.now memory.old }
    requires asked { Asked setting.now.target.frame choices (Instance next.q) }
    requires period_bound { own_distance setting.now.target.frame choices + next.q * setting.now.target.frame.period < 1000000 }
    requires placed_value { placed_in placed.now ≡ placed_out (frames setting.now) setting.now.target (Instance next.q) choices }
    ensures by_index { IfSome result (λ after. (i : ℕ) → next.q ≤ i → i < after.q → ShownWithin setting.now.target.faults (frames setting.now) setting.now.target.frame choices best i) }
    ensures some { IfSome result (λ after. (next.q < after.q) × (after.q ≤ next.q + 1000001)) }
    ensures remembered { Remembers setting.now memory.new }
{
    let k = setting.target.frame;
    let q = next.q;
    let latest = latest_start(best, k.length, own_distance(k, choices) + q * k.period)?;
    let shown = shown_by(setting, choices, q, next.near, latest, placed, memory)?;
    let near = if shown.start < latest {
        shown.start
    } else {
        next.near
    };
    Some(Next {
        q: q + shown.count,
        near,
    })
}
