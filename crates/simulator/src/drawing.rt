// The starts that are drawn, and the engine before the first transmission.
ghost use Rattle.std.specs.Prelude.{◌≡◌, map, ◌<◌, ◌≤◌};
ghost use Rattle.arith.specs.Lists.{range};
ghost use Rattle.table_checks.specs.Table.{frames};
ghost use Rattle.simulator.specs.Starts.{has_frames, start_drawn, starts_drawn, first_due, first_of};
ghost use Rattle.simulator.specs.Theory.First.{Early};

use crate::{Engine, Starts};
use table_checks::Table;

// Whether the group has frames.
fn has_frames(table: &Table, group: u32) -> bool
    ensures { result ≡ has_frames (frames table.now) group }
{
    for i in 0..table.count() {
        if table.frame(i).group == group {
            return true;
        }
    }
    false
}

// The group draws its start, where it has frames.
fn draw_start(table: &Table, d: Starts, group: u32) -> Starts
    requires { (1 ≤ group) × (group ≤ 16) }
    ensures { result ≡ start_drawn (frames table.now) d group }
{
    if has_frames(table, group) {
        let v = generator::drawn(d.drawn);
        let h = table_checks::hyperperiod(table.rows, u64::from(group));
        let mut starts = d.starts;
        starts[group as usize] = u64::from(v) % h;
        Starts { drawn: v, starts }
    } else {
        d
    }
}

// The groups draw their starts, rising.
pub fn draw_starts(table: &Table, seed: u32) -> Starts
    ensures { result ≡ starts_drawn (frames table.now) seed 16 }
{
    let mut d = Starts {
        drawn: seed,
        starts: [0; 17],
    };
    for group in 1..17 {
        d = draw_start(table, d, group);
    }
    d
}

// The first release of row i.
fn first_due(table: &Table, d: Starts, i: usize) -> u64
    requires { Early d }
    ensures { result ≡ first_due (frames table.now) d i }
{
    let g = table.frame(i);
    d.starts[g.group as usize] + u64::from(g.offset)
}

// The first releases.
fn first_dues(table: &Table, d: Starts) -> [u64; 64]
    requires { Early d }
    ensures { result ≡ map (first_due (frames table.now) d) (range 0 64) }
{
    let mut due = [0u64; 64];
    for i in 0..64 {
        due[i] = first_due(table, d, i);
    }
    due
}

// The engine before the first transmission.
pub fn first(table: &Table, d: Starts) -> Engine
    requires { Early d }
    ensures { result ≡ first_of (frames table.now) d }
{
    Engine {
        drawn: d.drawn,
        free: 0,
        due: first_dues(table, d),
    }
}
