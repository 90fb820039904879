// The work that a group's frames bring in the first n ticks after one of its alignments.
ghost use Rattle.std.specs.Prelude.{◌≡◌, ◌-◌, ◌*◌, ◌/◌, ◌%◌, ◌<◌, ◌≤◌, min, length, slice_index};
ghost use mathlib.Core.List.{Memᴰ as Mem};
ghost use Rattle.arith.specs.Releases.{releases_before};
ghost use Rattle.bus_model.specs.Frame.{row};
ghost use Rattle.bus_model.specs.Bounds.{phase, distance, demand, work_at};
ghost use Rattle.workload.specs.Prepared.{Fine, FinePart, frames_in, table_of};

use crate::prepared::{Row, row_at};
use bus_model::Frame;

// The quotient of x and p, by an inverse of p that may be off: the product is looked at, and where it does not fit, the
// machine divides. Where no inverse is at hand, 0 will do.
pub fn quotient(x: u32, p: u32, inverse: u32) -> u32
    requires { 1 ≤ p }
    ensures { result ≡ x / p }
{
    let q = x as u64 * inverse as u64 / 4294967296;
    let part = q * p as u64;
    if part <= x as u64 {
        if x as u64 - part < p as u64 {
            return q as u32;
        }
    }
    x / p
}

// What whole p leave of x. Mostly x is below p, and then nothing is divided.
fn remainder(x: u32, p: u32, inverse: u32) -> u32
    requires { 1 ≤ p }
    ensures value { result ≡ x % p }
    ensures small { result < p }
{
    if x < p {
        return x;
    }
    x - quotient(x, p, inverse) * p
}

// 1 where d is below n, and 0 elsewhere.
fn counts_below(d: u32, n: u32) -> u32
    ensures { result ≡ min 1 (n - d) }
{
    if d < n { 1 } else { 0 }
}

// How many of d, d + p, d + 2p, .. are below n. Mostly it is one at the most, and whether it is one is left to no branch.
pub fn releases_before(d: u32, p: u32, n: u32, inverse: u32) -> u32
    requires { (1 ≤ p) × (p ≤ 1000000) × (n ≤ 1000400) }
    ensures value { result ≡ releases_before d p n }
    ensures small { result ≤ n }
{
    if n as u64 <= d as u64 + p as u64 {
        return counts_below(d, n);
    }
    quotient(n - d + (p - 1), p, inverse)
}

// The offset as the bounds read it, modulo the period.
pub fn phase_of(g: Frame, inverse: u32) -> u32
    requires { Fine g }
    ensures value { result ≡ phase g }
    ensures small { result < g.period }
{
    remainder(g.offset, g.period, inverse)
}

// How long after alignment a the frame is released.
pub fn distance_from(g: Frame, a: u32, inverse: u32) -> u32
    requires { Fine g }
    ensures value { result ≡ distance g a }
    ensures small { result < g.period }
{
    let rest = remainder(a, g.period, inverse);
    let later = phase_of(g, inverse) + (g.period - rest);
    if later < g.period {
        later
    } else {
        later - g.period
    }
}

// The length of the releases in the first n ticks, where d is the distance from the alignment.
pub fn demand_from(length: u32, period: u32, d: u32, n: u32, inverse: u32) -> u64
    requires { (length ≤ 431) × (1 ≤ period) × (period ≤ 1000000) × (n ≤ 1000001) }
    ensures value { result ≡ length * releases_before d period n }
    ensures small { result ≤ length * 1000001 }
{
    let times = releases_before(d, period, n, inverse);
    length as u64 * times as u64
}

// That of a frame at alignment a.
pub fn frame_demand(g: Frame, a: u32, n: u32, inverse: u32) -> u64
    requires fine { Fine g }
    requires n_bound { n ≤ 1000001 }
    ensures value { result ≡ demand g a n }
    ensures small { result ≤ 400400400 }
{
    let d = distance_from(g, a, inverse);
    demand_from(g.length, g.period, d, n, inverse)
}

// The row that stands at place i of some rows.
pub fn listed_row(rows: &[u32], prepared: &[u32], part: &[u32], i: usize) -> Row
    requires fine_part { FinePart rows.now prepared.now part.now }
    requires i_in_bounds { i < length part.now }
    ensures frame_value { result.frame ≡ row (table_of rows.now prepared.now) (slice_index part.now i) }
    ensures listed { Mem result.frame (frames_in (table_of rows.now prepared.now) part.now) }
    ensures fine { Fine result.frame }
{
    row_at(rows, prepared, part[i] as usize)
}

// The work of the frames in some rows.
pub fn work_in(rows: &[u32], prepared: &[u32], part: &[u32], a: u32, n: u32) -> u64
    requires fine_part { FinePart rows.now prepared.now part.now }
    requires n_bound { n ≤ 1000001 }
    ensures value { result ≡ work_at (frames_in (table_of rows.now prepared.now) part.now) a n }
    ensures small { result ≤ 64 * 400400400 }
{
    let mut sum: u64 = 0;
    for i in 0..part.len() {
        let r = listed_row(rows, prepared, part, i);
        sum += frame_demand(r.frame, a, n, r.inverse);
    }
    sum
}
