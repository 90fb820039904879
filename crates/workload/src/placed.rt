// The frames that load a scenario, placed for a search: each as if its group's alignment were at 0, by its length, its period and its first
// release, with an inverse of the period. A look at them computes no distance. Faults are placed behind them, as one frame more.
ghost use Rattle.std.specs.Prelude.{◌≡◌, ◌*◌, ◌≤◌, ◌++◌, length, take};
ghost use Rattle.workload.specs.Prepared.{Fine, table_of, Filled};
ghost use Rattle.workload.specs.Faults.{FineTarget};
ghost use Rattle.workload.specs.Placed.{is_load, first_release, placed_in, placed_frames, placed_faults, placed_out, placed_work, FinePlaced};

use crate::faults::{first_fault, lead_of};
use crate::prepared::row_at;
use crate::work::{demand_from, distance_from};
use crate::{Search, Target};
use bus_model::{Choice, Faults, Frame};
use table_checks::ROW;

// So many are placed at the most: the frames of the longest table, and the faults.
pub const PLACES: usize = 65;

// A placed frame, with an inverse of its period, of which nothing is promised.
#[derive(Clone, Copy)]
pub struct PlacedFrame {
    pub length: u32,
    pub period: u32,
    pub first: u32,
    pub inverse: u32,
}

impl PlacedFrame {
    // No frame, at the places that are free.
    pub const NONE: PlacedFrame = PlacedFrame {
        length: 0,
        period: 0,
        first: 0,
        inverse: 0,
    };
}

// Whether a frame loads what is looked for: k loads its busy window itself, and no start.
fn is_load(g: Frame, k: Frame, search: Search) -> bool
    ensures { result ≡ is_load search k g }
{
    match search {
        Search::Window => g.priority <= k.priority,
        Search::Instance(_) => g.priority < k.priority,
    }
}

// How long after the start a frame is released first: at once, where the alignment is open.
fn first_release(g: Frame, choice: Choice, inverse: u32) -> u32
    requires { Fine g }
    ensures { result ≡ first_release choice g }
{
    match choice {
        Choice::Fixed(a) => distance_from(g, a, inverse),
        Choice::Any => 0,
    }
}

// Places the frames at the start of an area, and answers how many they are.
fn place_frames(
    rows: &[u32],
    prepared: &[u32],
    k: Frame,
    search: Search,
    choices: [Choice; 16],
    area: &mut [PlacedFrame],
) -> usize
    requires filled { Filled rows.now prepared.now }
    requires area_len { length area.old ≡ 65 }
    ensures area_after { placed_in (take result area.new) ≡ placed_frames (table_of rows.now prepared.now) k search choices }
    ensures few { result ≤ 64 }
{
    let mut found = 0;
    for i in 0..rows.len() / ROW {
        let r = row_at(rows, prepared, i);
        let g = r.frame;
        if is_load(g, k, search) {
            let choice = choices[(g.group - 1) as usize];
            area[found] = PlacedFrame {
                length: g.length,
                period: g.period,
                first: first_release(g, choice, r.inverse),
                inverse: r.inverse,
            };
            found += 1;
        }
    }
    found
}

// Places the faults behind so many frames, and answers how many stand there then.
fn place_faults(target: Target, search: Search, found: usize, area: &mut [PlacedFrame]) -> usize
    requires fine_target { FineTarget target }
    requires found_bound { (found ≤ 64) × (length area.old ≡ 65) }
    ensures area_after { placed_in (take result area.new) ≡ placed_in (take found area.old) ++ placed_faults target search }
    ensures few { result ≤ 65 }
{
    let Faults::Apart(gap) = target.faults else {
        return found;
    };
    let lead = lead_of(search, target.frame);
    area[found] = PlacedFrame {
        length: target.cost,
        period: gap,
        first: first_fault(gap, lead),
        inverse: 0,
    };
    found + 1
}

// Places both, and answers how many they are.
pub fn place(
    rows: &[u32],
    prepared: &[u32],
    target: Target,
    search: Search,
    choices: [Choice; 16],
    area: &mut [PlacedFrame],
) -> usize
    requires filled { Filled rows.now prepared.now }
    requires fine_target { FineTarget target }
    requires area_len { length area.old ≡ 65 }
    ensures area_after { placed_in (take result area.new) ≡ placed_out (table_of rows.now prepared.now) target search choices }
    ensures few { result ≤ 65 }
{
    let found = place_frames(rows, prepared, target.frame, search, choices, area);
    place_faults(target, search, found, area)
}

// The work of placed frames in the first n ticks.
pub fn placed_work(placed: &[PlacedFrame], n: u32) -> u64
    requires fine_placed { FinePlaced (placed_in placed.now) }
    requires n_bound { n ≤ 1000001 }
    ensures value { result ≡ placed_work (placed_in placed.now) n }
    ensures small { result ≤ 65 * 431431431 }
{
    let mut sum: u64 = 0;
    for p in placed {
        sum += demand_from(p.length, p.period, p.first, n, p.inverse);
    }
    sum
}
