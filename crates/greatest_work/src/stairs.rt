// The memory of greatest works. A group's greatest work rises in stairs: where two lengths have the same, so has each between them. A
// number holds a stair as far as it is known: the group, its first and last length that were asked for, and the work.
ghost use Rattle.std.specs.Prelude.{◌≡◌, ℕ, ◌≤◌, ◌<◌, min, max, length, Some};
ghost use Rattle.greatest_work.specs.Memory.{packed, is_on, is_of, widened, Told, RememberedWith};

use arith::product;

// So many numbers are remembered: stairs, and an alignment for each group.
pub const MEMORY: usize = 528;

// There the alignments start.
// A number each, 0 where there is none: the memory is plain numbers of fixed size (`Remembered`).
pub const GUESSES: usize = 512;

// So many stairs share a place,
const WAYS: usize = 4;

// and so many places there are.
const SETS: usize = 128;

// So many of them a group has for each of its frames: those of all groups, 64 frames at the most, are just these.
const FRAME_SETS: usize = 2;

const UNIT: u64 = 1_048_576;

// The place for a length of a group, whose frames are `count`, behind those of the groups before it: the lengths below its cycle are cut
// into as many parts. Nothing is promised of it, since a stair says itself what it holds of.
pub fn set_of(before: usize, count: usize, n: u32, cycle: u32) -> usize
    requires { (before ≤ 1024) × (count ≤ 64) × (n ≤ 1000001) × (1 ≤ cycle) }
    ensures { result < 128 }
{
    let at = product(n, (FRAME_SETS * count) as u32) / cycle as u64;
    (FRAME_SETS * before + (at % SETS as u64) as usize) % SETS
}

fn pack(j: u64, low: u64, high: u64, work: u64) -> u64
    requires { (j < 16) × (low < 1048576) × (high < 1048576) × (work < 1048576) }
    ensures { result ≡ packed j low high work }
{
    ((j * UNIT + low) * UNIT + high) * UNIT + work
}

fn is_on(v: u64, j: usize, n: u32) -> bool
    ensures { result ≡ is_on v j n }
{
    let inside = (v / UNIT / UNIT % UNIT <= n as u64) & (n as u64 <= v / UNIT % UNIT);
    (v / UNIT / UNIT / UNIT == j as u64) & inside
}

fn is_of(v: u64, j: usize, work: u64) -> bool
    ensures { result ≡ is_of v j work }
{
    (v / UNIT / UNIT / UNIT == j as u64) & (v % UNIT == work)
}

fn widen(v: u64, n: u32) -> u64
    requires { n < 1048576 }
    ensures { result ≡ widened v n }
{
    let low = (v / UNIT / UNIT % UNIT).min(n as u64);
    let high = (v / UNIT % UNIT).max(n as u64);
    pack(v / UNIT / UNIT / UNIT, low, high, v % UNIT)
}

// The greatest work of group j + 1 in the first n ticks, if a stair tells it.
pub fn lookup(memory: &[u64], set: usize, j: usize, n: u32) -> Option<u32>
    requires { (length memory.now ≡ 528) × (set < 128) }
    ensures { (w : ℕ) → result ≡ Some w → Told memory.now j n w }
{
    for i in 0..WAYS {
        let v = memory[WAYS * set + i];
        if is_on(v, j, n) {
            return Some((v % UNIT) as u32);
        }
    }
    None
}

// The place for a stair of group j + 1 with this work: where one stands or none yet, or else the last. Lengths are asked for rising, over
// and over: so the others stay, where those that were used least lately would go just before they are asked for.
fn place_for(memory: &[u64], set: usize, j: usize, work: u64) -> usize
    requires { (length memory.now ≡ 528) × (set < 128) }
    ensures { result < 512 }
{
    for i in 0..WAYS {
        let v = memory[WAYS * set + i];
        if v == 0 || is_of(v, j, work) {
            return WAYS * set + i;
        }
    }
    WAYS * set + WAYS - 1
}

// Remembers the greatest work of group j + 1 in the first n ticks: a stair of the same work is widened, or else there is a new one.
pub fn insert(memory: &mut [u64], set: usize, j: usize, n: u32, work: u64)
    requires { (length memory.old ≡ 528) × (set < 128) × (j < 16) × (n < 1048576) }
    ensures { RememberedWith j n work memory.old memory.new }
{
    if UNIT <= work {
        return;
    }
    let p = place_for(memory, set, j, work);
    let v = memory[p];
    if is_of(v, j, work) {
        memory[p] = widen(v, n);
    } else {
        memory[p] = pack(j as u64, n as u64, n as u64, work);
    }
}
