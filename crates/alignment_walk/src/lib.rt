// A group's alignments, one after the other: no array holds them. Which instants this walk visits: specs/Walk.
#![tactic(auto)]

ghost use Rattle.std.specs.Prelude.{◌≡◌, cond, ◌+◌, ◌-◌, ◌*◌, ◌≤◌, ◌<◌, max, eqb, ltb, length};
ghost use mathlib.Core.List.{Memᴰ as Mem};
ghost use Rattle.arith.specs.Lists.{sum, greatest};
ghost use Rattle.bus_model.specs.declared.Frame.{Frame};
ghost use Rattle.bus_model.specs.Bounds.{phase, work_at, or_empty};
ghost use Rattle.workload.specs.Prepared.{Fine, FinePart, frames_in, table_of, instants_in, or_end};
ghost use Rattle.alignment_walk.specs.Steps.{next_release, wait_from, whole_demand, extra_demand, Notes, Noted};
ghost use Rattle.alignment_walk.specs.Walk.{step, visits};

use arith::choose;
use bus_model::Frame;
use workload::{GROUP_ROWS, listed_row, phase_of, quotient, releases_before};

// Noted of a group's frames are first the lengths, from here on the periods,
const PERIODS: usize = 64;

// and from here on the rests that the whole periods leave:
const RESTS: usize = 128;

// so many numbers, those of one kind behind each other, as the walk reads them.
const NOTES: usize = 192;

// The first release of the frame at or after a tick, as its alignments have it.
fn next_release(g: Frame, after: u32, inverse: u32) -> u32
    requires fine { Fine g }
    requires after_bound { after ≤ 1000000 }
    ensures { result ≡ next_release after g }
{
    let phase = phase_of(g, inverse);
    phase + releases_before(phase, g.period, after, inverse) * g.period
}

// The first alignment at or after a tick, below `end`, of a group whose frames ahead stand in some rows.
pub fn next_alignment(
    rows: &[u32],
    prepared: &[u32],
    part: &[u32],
    after: u32,
    end: u32,
) -> Option<u32>
    requires fine_part { FinePart rows.now prepared.now part.now }
    requires after_le_end { (after ≤ end) × (end ≤ 1000000) }
    ensures { result ≡ step (frames_in (table_of rows.now prepared.now) part.now) end after }
{
    let mut best = end;
    for i in 0..part.len() {
        let r = listed_row(rows, prepared, part, i);
        best = best.min(next_release(r.frame, after, r.inverse));
    }
    (best < end).then_some(best)
}

// What the visit of an alignment tells: the work of the rests that the frames' whole periods leave in the first n ticks, and how long
// after it the next alignment is, or `end` where there is none below it.
#[derive(Clone, Copy)]
struct Visited {
    extra: u32,
    gap: u32,
}

// The length of a release that is waited for, where it comes in the rest.
fn in_rest(wait: u32, rest: u32, length: u32) -> u32
    ensures { result ≡ cond (ltb wait rest) length 0 }
{
    choose(wait < rest, length, 0)
}

// How long the next release is waited for: a period, where one is released now.
fn wait_after(wait: u32, period: u32) -> u32
    ensures { result ≡ cond (eqb wait 0) period wait }
{
    choose(wait == 0, period, wait)
}

// The demand of the frames' whole periods in the first n ticks, which no alignment changes. Noted are each frame's length and
// period, and the rest that the periods leave; and how long after the first alignment its first release is.
fn begin(
    rows: &[u32],
    prepared: &[u32],
    part: &[u32],
    n: u32,
    first: u32,
    notes: &mut [u32; NOTES],
    waits: &mut [u32; GROUP_ROWS],
) -> u64
    requires fine_part { FinePart rows.now prepared.now part.now }
    requires n_bound { (n ≤ 1000001) × ((g : Frame) → Mem g (frames_in (table_of rows.now prepared.now) part.now) → first ≤ phase g) }
    requires notes_len { (length notes.old ≡ 192) × (length waits.old ≡ 64) }
    ensures value { result ≡ sum (whole_demand n) (frames_in (table_of rows.now prepared.now) part.now) }
    ensures small { result ≤ 64 * 400000400 }
    ensures notes { Notes n (table_of rows.now prepared.now) part.now notes.new }
    ensures waits { Noted (wait_from first first) (table_of rows.now prepared.now) part.now waits.new }
{
    let mut whole: u64 = 0;
    for i in 0..part.len() {
        let r = listed_row(rows, prepared, part, i);
        let g = r.frame;
        let times = quotient(n, g.period, r.inverse);
        notes[i] = g.length;
        notes[PERIODS + i] = g.period;
        notes[RESTS + i] = n - times * g.period;
        waits[i] = phase_of(g, r.inverse) - first;
        whole += g.length as u64 * times as u64;
    }
    whole
}

// The visit of alignment a, which is `gap` ticks after the last one. How long after that each frame is released at a or later is
// noted, and how long after a it is released next takes its place: so the walk from one alignment to the next needs no quotient.
fn visit(
    rows: &[u32],
    prepared: &[u32],
    part: &[u32],
    gap: u32,
    a: u32,
    n: u32,
    end: u32,
    notes: &[u32; NOTES],
    waits: &mut [u32; GROUP_ROWS],
) -> Visited
    requires fine_part { FinePart rows.now prepared.now part.now }
    requires gap_le_a { (gap ≤ a) × (a < end) × (end ≤ 1000000) }
    requires notes { Notes n (table_of rows.now prepared.now) part.now notes.now }
    requires noted { Noted (wait_from (a - gap) a) (table_of rows.now prepared.now) part.now waits.old }
    ensures extra_value { result.extra ≡ sum (extra_demand a n) (frames_in (table_of rows.now prepared.now) part.now) }
    ensures next { a + result.gap ≡ or_end end (step (frames_in (table_of rows.now prepared.now) part.now) end (a + 1)) }
    ensures small { (result.extra ≤ 64 * 400) × (result.gap ≤ end - a) }
    ensures waits { Noted (wait_from a (a + 1)) (table_of rows.now prepared.now) part.now waits.new }
{
    let mut extra: u32 = 0;
    let mut least = end - a;
    for i in 0..part.len() {
        let wait = waits[i] - gap;
        extra += in_rest(wait, notes[RESTS + i], notes[i]);
        let later = wait_after(wait, notes[PERIODS + i]);
        waits[i] = later;
        least = least.min(later);
    }
    Visited { extra, gap: least }
}

// An alignment and its work, and how many alignments there are.
#[derive(Clone, Copy)]
pub struct Best {
    pub alignment: u32,
    pub work: u64,
    pub count: u32,
}

// The greatest work that an alignment gives in the first n ticks, and the first alignment that gives it; all 0 where there is none.
pub fn best_alignment(rows: &[u32], prepared: &[u32], part: &[u32], end: u32, n: u32) -> Best
    requires fine_part { FinePart rows.now prepared.now part.now }
    requires end_bound { (end ≤ 1000000) × (n ≤ 1000001) }
    ensures among { Mem result.alignment (or_empty (instants_in (frames_in (table_of rows.now prepared.now) part.now) end)) }
    ensures work_value { result.work ≡ greatest (λ a. work_at (frames_in (table_of rows.now prepared.now) part.now) a n) (instants_in (frames_in (table_of rows.now prepared.now) part.now) end) }
    ensures count { result.count ≡ length (visits (frames_in (table_of rows.now prepared.now) part.now) end) }
    ensures small { (result.work ≤ 64 * 400400400) × (result.count ≤ 1000000) }
{
    let Some(first) = next_alignment(rows, prepared, part, 0, end) else {
        return Best {
            alignment: 0,
            work: 0,
            count: 0,
        };
    };
    let mut notes = [0u32; NOTES];
    let mut waits = [0u32; GROUP_ROWS];
    let whole = begin(rows, prepared, part, n, first, &mut notes, &mut waits);
    let mut alignment = first;
    let mut work: u64 = 0;
    let mut count: u32 = 0;
    let mut gap: u32 = 0;
    let mut a = first;
    // No range: each visit finds the next alignment, and how many there are is not known before.
    loop {
        let v = visit(rows, prepared, part, gap, a, n, end, &notes, &mut waits);
        let visited = whole + v.extra as u64;
        count += 1;
        if work < visited {
            work = visited;
            alignment = a;
        }
        if end <= a + v.gap {
            return Best {
                alignment,
                work,
                count,
            };
        }
        gap = v.gap;
        a += v.gap;
    }
}

// How many alignments the walk visits, an empty one counting 1: with the hyperperiod as the end, the group's factor in the number of scenarios
// (`visits-factor`, Laws/Walk).
pub fn count_alignments(rows: &[u32], prepared: &[u32], part: &[u32], end: u32) -> u32
    requires fine_part { FinePart rows.now prepared.now part.now }
    requires end_bound { end ≤ 1000000 }
    ensures value { result ≡ max (length (visits (frames_in (table_of rows.now prepared.now) part.now) end)) 1 }
    ensures small { (1 ≤ result) × (result ≤ 1000000) }
{
    best_alignment(rows, prepared, part, end, 0).count.max(1)
}
