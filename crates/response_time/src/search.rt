// The load of a scenario, and the searches over it.
ghost use Rattle.std.specs.Prelude.{◌≡◌, List, ℕ, ◌+◌, ◌-◌, ◌*◌, ◌≤◌};
ghost use Rattle.arith.specs.Least.{least};
ghost use Rattle.bus_model.specs.declared.Choice.{Choice};
ghost use Rattle.bus_model.specs.declared.Choice.TheVariants.{Fixed};
ghost use Rattle.bus_model.specs.Bounds.{choice_of, demand, busy_window, own_distance};
ghost use Rattle.bus_model.specs.Theory.OpenGroups.{is_any};
ghost use Rattle.bus_model.specs.Theory.Work.{RefinedBy};
ghost use Rattle.workload.specs.Prepared.{Fine};
ghost use Rattle.workload.specs.Faults.{FineTarget};
ghost use Rattle.workload.specs.Placed.{placed_in, FinePlaced};
ghost use Rattle.greatest_work.specs.Setting.{frames, Remembers};
ghost use Rattle.response_time.specs.Load.{load_of, frame_load, holds, Asked, base_of, waits_of, shift_of, placed_holds};

use arith::product;
use bus_model::{Choice, Frame};
use greatest_work::{Setting, guessed, whole_work};
use workload::{
    PLACES, PlacedFrame, Search, Target, distance_from, fault_cost, frame_demand, lead_of, place,
    placed_work,
};

// The longest busy window that is looked for.
pub const WINDOW_LIMIT: u32 = 1_000_000;

// Whether a choice leaves the alignment open.
pub fn is_open(choice: Choice) -> bool
    ensures { result ≡ is_any choice }
{
    matches!(choice, Choice::Any)
}

// The choice of k's own group.
pub fn own_choice(k: Frame, choices: [Choice; 16]) -> Choice
    requires { Fine k }
    ensures { result ≡ choice_of choices k.group }
{
    let at = (k.group - 1) as usize;
    choices[at]
}

// How long after the start k is released.
pub fn own_distance(k: Frame, choices: [Choice; 16]) -> u32
    requires { Fine k }
    ensures { result ≡ own_distance k choices }
{
    match own_choice(k, choices) {
        Choice::Fixed(a) => distance_from(k, a, 0),
        Choice::Any => 0,
    }
}

// What k's own releases ask for in the first n ticks, where its group is fixed.
fn own_demand(k: Frame, choices: [Choice; 16], n: u32) -> u64
    requires fine { Fine k }
    requires n_bound { n ≤ 1000001 }
    ensures { (a : ℕ) → choice_of choices k.group ≡ Fixed a → result ≡ demand k a n }
{
    match own_choice(k, choices) {
        Choice::Fixed(a) => frame_demand(k, a, n, 0),
        Choice::Any => 0,
    }
}

// The blocking and so many lengths.
fn with_lengths(blocked: u32, q: u32, length: u32) -> u64
    ensures { result ≡ blocked + q * length }
{
    blocked as u64 + product(q, length)
}

// What is waited for besides the work of the frames and the faults.
fn base_of(target: Target, search: Search) -> u64
    ensures { result ≡ base_of target.blocked target.frame search }
{
    let k = target.frame;
    match search {
        Search::Window => target.blocked as u64,
        Search::Instance(q) => with_lengths(target.blocked, q, k.length),
    }
}

// What is waited for besides the work of all that is placed: the faults in the lead too.
pub fn waits_of(target: Target, search: Search) -> u64
    requires fine_target { FineTarget target }
    requires search_bound { base_of target.blocked target.frame search ≤ 400000400 }
    ensures value { result ≡ waits_of target search }
    ensures small { result ≤ 1000000000 }
{
    base_of(target, search) + fault_cost(target, lead_of(search, target.frame))
}

// A start looks one tick further than a busy window of its length.
fn shift_of(search: Search) -> u32
    ensures value { result ≡ shift_of search }
    ensures small { result ≤ 1 }
{
    match search {
        Search::Window => 0,
        Search::Instance(_) => 1,
    }
}

// The load of x that the frames bring: of a busy window of length x, or of a start at x. The greatest works of groups left open are
// remembered from one to the next.
fn frame_load(
    setting: &Setting,
    choices: [Choice; 16],
    search: Search,
    x: u32,
    memory: &mut [u64],
) -> u64
    requires remembered { Remembers setting.now memory.old }
    requires asked { Asked setting.now.target.frame choices search }
    requires x_bound { x ≤ 1000000 }
    ensures value { result ≡ frame_load (frames setting.now) setting.now.target.frame choices search x }
    ensures small { result ≤ 1000000000000 }
    ensures remembered { Remembers setting.now memory.new }
{
    let base = base_of(setting.target, search);
    match search {
        Search::Window => base + whole_work(setting, choices, x, memory),
        Search::Instance(_) => {
            let all = whole_work(setting, choices, x + 1, memory);
            base + (all - own_demand(setting.target.frame, choices, x + 1))
        }
    }
}

// The load of x: that of the frames and of the faults.
pub fn load(
    setting: &Setting,
    choices: [Choice; 16],
    search: Search,
    x: u32,
    memory: &mut [u64],
) -> u64
    requires remembered { Remembers setting.now memory.old }
    requires asked { Asked setting.now.target.frame choices search }
    requires x_bound { x ≤ 1000000 }
    ensures value { result ≡ load_of setting.now.target.faults (frames setting.now) setting.now.target.frame choices search x }
    ensures remembered { Remembers setting.now memory.new }
{
    let frames = frame_load(setting, choices, search, x, memory);
    let ticks = x + shift_of(search) + lead_of(search, setting.target.frame);
    frames + fault_cost(setting.target, ticks)
}

// The least x from `from` on, below `end`, that holds the work of placed frames up to `shift` ticks after it, step by step. Where
// x does not, nothing below its load does, since the load does not fall: that is tried next.
fn climb(placed: &[PlacedFrame], shift: u32, base: u64, from: u32, end: u32) -> Option<u32>
    requires fine_placed { FinePlaced (placed_in placed.now) }
    requires shift_bound { (shift ≤ 1) × (base ≤ 1000000000) × (end ≤ 1000001) }
    ensures { result ≡ least (placed_holds (placed_in placed.now) shift base) (end - from) from }
{
    let mut x = from;
    // No range: the next number is the load that was found.
    while x < end {
        let needed = base + placed_work(placed, x + shift);
        if needed <= x as u64 {
            return Some(x);
        }
        if end as u64 <= needed {
            return None;
        }
        x = needed as u32;
    }
    None
}

// The least x from `from` on, below `end`, that holds its load in the scenario with guesses.
fn climb_guessed(
    setting: &Setting,
    choices: [Choice; 16],
    search: Search,
    from: u32,
    end: u32,
    memory: &[u64],
) -> Option<u32>
    requires remembered { Remembers setting.now memory.now }
    requires asked { Asked setting.now.target.frame choices search }
    requires end_bound { end ≤ 1000001 }
    ensures { (cs : List Choice) × RefinedBy (frames setting.now) setting.now.target.frame choices cs × (result ≡ least (holds setting.now.target.faults (frames setting.now) setting.now.target.frame cs search) (end - from) from) }
{
    let finer = guessed(setting, choices, memory);
    let mut area = [PlacedFrame::NONE; PLACES];
    let to = place(
        setting.rows,
        setting.prepared,
        setting.target,
        search,
        finer,
        &mut area,
    );
    climb(
        &area[0..to],
        shift_of(search),
        waits_of(setting.target, search),
        from,
        end,
    )
}

// The least x from `from` on, below `end`, that holds its load. In the scenario with guesses the load is nowhere greater, so nothing
// holds its load before it does there, where a step costs little; what is found there is then looked at.
pub fn fixed_point(
    setting: &Setting,
    choices: [Choice; 16],
    search: Search,
    from: u32,
    end: u32,
    memory: &mut [u64],
) -> Option<u32>
    requires remembered { Remembers setting.now memory.old }
    requires asked { Asked setting.now.target.frame choices search }
    requires end_bound { end ≤ 1000001 }
    ensures value { result ≡ least (holds setting.now.target.faults (frames setting.now) setting.now.target.frame choices search) (end - from) from }
    ensures remembered { Remembers setting.now memory.new }
{
    let mut x = from;
    // No range: the next number is the load that was found.
    while x < end {
        let y = climb_guessed(setting, choices, search, x, end, memory)?;
        let needed = load(setting, choices, search, y, memory);
        if needed <= y as u64 {
            return Some(y);
        }
        if end as u64 <= needed {
            return None;
        }
        x = needed as u32;
    }
    None
}

// The busy window of a scenario.
pub fn busy_window(setting: &Setting, choices: [Choice; 16], memory: &mut [u64]) -> Option<u32>
    requires { Remembers setting.now memory.old }
    ensures value { result ≡ busy_window setting.now.target.faults (frames setting.now) setting.now.target.frame choices }
    ensures remembered { Remembers setting.now memory.new }
{
    let end = WINDOW_LIMIT + 1;
    fixed_point(setting, choices, Search::Window, 1, end, memory)
}
