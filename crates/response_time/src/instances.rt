// The instances of a scenario that are released in its busy window, in turn: some are shown to have a small response, and for the start of each
// other one is searched.
ghost use Rattle.std.specs.Prelude.{◌≡◌, ℕ, ◌+◌, ◌-◌, ◌*◌, ◌≤◌, ◌<◌, MatchOption};
ghost use Rattle.arith.specs.Releases.{releases_before};
ghost use Rattle.bus_model.specs.Bounds.{own_distance};
ghost use Rattle.workload.specs.declared.Search.TheVariants.{Instance};
ghost use Rattle.workload.specs.Prepared.{Fine};
ghost use Rattle.workload.specs.Placed.{placed_in, placed_out};
ghost use Rattle.greatest_work.specs.Setting.{frames, Remembers};
ghost use Rattle.response_time.specs.Load.{OwnFixed, Swept, Due, NoneAbove, Meets};

use crate::search::{WINDOW_LIMIT, fixed_point, own_distance};
use crate::within::{Next, shown_within};
use bus_model::{Choice, Frame};
use greatest_work::Setting;
use workload::{PlacedFrame, Search, releases_before};

// The instance whose turn it is, and from where on its delay is searched for, which is not below.
#[derive(Clone, Copy)]
pub struct Turn {
    pub next: Next,
    pub from: u32,
}

// The response of an instance, and the turn of the one after it.
#[derive(Clone, Copy)]
pub struct Met {
    pub response: u32,
    pub turn: Turn,
}

// The first one's turn.
pub const FIRST: Turn = Turn {
    next: Next { q: 0, near: 0 },
    from: 0,
};

// How many instances are released before a limit.
pub fn instances_before(k: Frame, choices: [Choice; 16], limit: u32) -> u32
    requires { Fine k × (limit ≤ 1000000) }
    ensures { result ≡ releases_before (own_distance k choices) k.period limit }
{
    releases_before(own_distance(k, choices), k.period, limit, 0)
}

// The response of an instance that starts at a delay and was released at a tick.
fn response(delay: u32, length: u32, released: u32) -> u32
    requires { (delay ≤ 1000000) × (length ≤ 400) }
    ensures { result ≡ delay + length - released }
{
    (delay + length).saturating_sub(released)
}

// The first instance from the next one on, before `end`, that is not shown to have a response of `best` at the most, or else `end`.
pub fn pass_shown(
    setting: &Setting,
    choices: [Choice; 16],
    from: Next,
    end: u32,
    best: u32,
    placed: &[PlacedFrame],
    memory: &mut [u64],
) -> Next
    requires remembered { Remembers setting.now memory.old }
    requires own_fixed { OwnFixed setting.now.target.frame choices }
    requires early { (from.q ≤ end) × ((q : ℕ) → q < end → own_distance setting.now.target.frame choices + q * setting.now.target.frame.period < 1000000) }
    requires placed_value { placed_in placed.now ≡ placed_out (frames setting.now) setting.now.target (Instance 0) choices }
    ensures swept { Swept setting.now.target.faults (frames setting.now) setting.now.target.frame choices best end from.q result.q }
    ensures remembered { Remembers setting.now memory.new }
{
    let mut next = from;
    // No range: how many instances are passed at once is what is shown.
    while next.q < end {
        let Some(after) = shown_within(setting, choices, next, best, placed, memory) else {
            return next;
        };
        next = Next {
            q: after.q.min(end),
            near: after.near,
        };
    }
    next
}

// The first instance from the one whose turn it is on that is not shown to have a response of `best` at the most, if there is one before the
// last of them.
pub fn next_met(
    setting: &Setting,
    choices: [Choice; 16],
    turn: Turn,
    instances: u32,
    best: u32,
    placed: &[PlacedFrame],
    memory: &mut [u64],
) -> Option<Met>
    requires remembered { Remembers setting.now memory.old }
    requires due { Due setting.now.target.faults (frames setting.now) setting.now.target.frame choices instances turn.from turn.next.q }
    requires placed_value { placed_in placed.now ≡ placed_out (frames setting.now) setting.now.target (Instance 0) choices }
    ensures meets { MatchOption result (NoneAbove setting.now.target.faults (frames setting.now) setting.now.target.frame choices best turn.next.q instances) (λ m. Meets setting.now.target.faults (frames setting.now) setting.now.target.frame choices instances best turn.next.q m.response m.turn.from m.turn.next.q) }
    ensures remembered { Remembers setting.now memory.new }
{
    let next = pass_shown(setting, choices, turn.next, instances, best, placed, memory);
    let q = next.q;
    if q == instances {
        return None;
    }
    let search = Search::Instance(q);
    let end = WINDOW_LIMIT;
    let found = fixed_point(setting, choices, search, turn.from, end, memory);
    let delay = found.unwrap_or(0);
    let k = setting.target.frame;
    let released = own_distance(k, choices) + q * k.period;
    let next = Next {
        q: q + 1,
        near: delay,
    };
    Some(Met {
        response: response(delay, k.length, released),
        turn: Turn {
            next,
            from: delay + k.length,
        },
    })
}
