// One transmission a step.
ghost use Rattle.std.specs.Prelude.{◌≡◌, cond, ◌<◌, ◌≤◌, ◌^◌, ltb, length};
ghost use Rattle.table_checks.specs.Table.{frames};
ghost use Rattle.bus_log.specs.Follow.{due_of};
ghost use Rattle.simulator.specs.Engine.{lowest_of, rank_at, length_from, start_next, entry_next, moved_by};

use crate::Engine;
use bus_log::Entry;
use table_checks::Table;

// Above all priorities.
// A number, as `rank_at` has it.
const UNRANKED: u64 = 4_294_967_296;

// Row i or row k, whichever is released sooner.
fn sooner(due: [u64; 64], i: usize, k: usize) -> usize
    requires { (i < 64) × (k < 64) }
    ensures value { result ≡ cond (ltb (due_of due i) (due_of due k)) i k }
    ensures small { result < 64 }
{
    if due[i] < due[k] { i } else { k }
}

// The row that is released soonest, of n.
fn soonest(due: [u64; 64], n: usize) -> usize
    requires { n ≤ 64 }
    ensures value { result ≡ lowest_of (due_of due) n }
    ensures small { result < 64 }
{
    let mut k = 0;
    for i in 0..n {
        k = sooner(due, i, k);
    }
    k
}

// When the next transmission starts, of n rows.
fn start_next(s: Engine, n: usize) -> u64
    requires { n ≤ 64 }
    ensures { result ≡ start_next n s }
{
    s.free.max(s.due[soonest(s.due, n)])
}

// The rank of row i at tick t, where only rows that wait have one.
fn rank_at(table: &Table, due: [u64; 64], t: u64, i: usize) -> u64
    requires { i < 64 }
    ensures { result ≡ rank_at (frames table.now) due t i }
{
    if due[i] <= t {
        table.frame(i).priority
    } else {
        UNRANKED
    }
}

// Row i or row k, whichever is ranked better.
fn better(table: &Table, due: [u64; 64], t: u64, i: usize, k: usize) -> usize
    requires { (i < 64) × (k < 64) }
    ensures value { result ≡ cond (ltb (rank_at (frames table.now) due t i) (rank_at (frames table.now) due t k)) i k }
    ensures small { result < 64 }
{
    if rank_at(table, due, t, i) < rank_at(table, due, t, k) {
        i
    } else {
        k
    }
}

// The row that is sent at tick t.
fn best(table: &Table, due: [u64; 64], t: u64) -> usize
    ensures value { result ≡ lowest_of (rank_at (frames table.now) due t) (length (frames table.now)) }
    ensures small { result < 64 }
{
    let mut k = 0;
    for i in 0..table.count() {
        k = better(table, due, t, i, k);
    }
    k
}

// A length, from what is drawn for it.
fn length_from(v: u32, largest: u32) -> u64
    requires { 0 < largest }
    ensures { result ≡ length_from v largest }
{
    1 + u64::from(v % largest)
}

// The next transmission, where v is drawn for its length.
pub fn entry_next(table: &Table, s: Engine, v: u32) -> Entry
    ensures { result ≡ entry_next (frames table.now) s v }
{
    let start = start_next(s, table.count());
    let k = best(table, s.due, start);
    let g = table.frame(k);
    Entry {
        frame: k,
        start,
        release: s.due[k],
        length: length_from(v, g.length),
    }
}

// The engine after a transmission, for which v was drawn.
pub fn moved_by(table: &Table, s: Engine, v: u32, e: Entry) -> Engine
    requires { (e.frame < 64) × (e.start < 2 ^ 40) × (e.release < 2 ^ 40) × (e.length < 2 ^ 40) }
    ensures { result ≡ moved_by (frames table.now) s v e }
{
    let g = table.frame(e.frame);
    let mut due = s.due;
    due[e.frame] = e.release + u64::from(g.period);
    Engine {
        drawn: v,
        free: e.start + e.length,
        due,
    }
}
