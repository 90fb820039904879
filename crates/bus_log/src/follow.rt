// Following a log: what its lines say of the groups' starts, and whether the bus rule allows them.
ghost use Rattle.std.specs.Prelude.{◌≡◌, ◌+◌, ◌*◌, ◌<◌, ◌≤◌, ◌^◌, map, length};
ghost use Rattle.arith.specs.Lists.{exists, range};
ghost use Rattle.bus_model.specs.Frame.{row};
ghost use Rattle.table_checks.specs.Columns.{columns};
ghost use Rattle.table_checks.specs.Frames.{frames_of};
ghost use Rattle.table_checks.specs.Checks.{Accepted};
ghost use Rattle.bus_log.specs.Log.{is_named, row_of};
ghost use Rattle.bus_log.specs.Follow.{entry_of, begin, follow_line, start_shown, is_seen, due_of, told_start, is_told, told_due, due_with, is_against, hinders, row_hinders, is_due, is_allowed, earliest, due_next, due_after, starts_after, advance};

use crate::{Entry, Line, Progress};
use bus_model::Frame;
use table_checks::{IDENTIFIER, KIND, ROW};

// Functions ask that the rows are accepted and nothing of the lengths: a `Table` would ask more of callers. Bounds of single numbers stay clauses,
// since `Entry` is built by the definitions.

// Whether row i has the line's identifier and kind.
#[tactic(auto, unfolding(crate::specs::Log::is_named))]
pub fn is_named(rows: &[u32], l: Line, i: usize) -> bool
    requires { columns * i + columns ≤ length rows.now }
    ensures { result ≡ is_named rows.now l i }
{
    u64::from(rows[ROW * i + IDENTIFIER]) == l.identifier
        && u64::from(rows[ROW * i + KIND]) == l.kind
}

// The row with the line's identifier and kind, or the number of rows.
// No Option: an entry of no row is refused as any other is (`is_allowed`), and `entry_of` is defined so.
fn row_of(rows: &[u32], l: Line) -> usize
    ensures { result ≡ row_of rows.now l }
{
    let n = rows.len() / ROW;
    for i in 0..n {
        if is_named(rows, l, i) {
            return i;
        }
    }
    n
}

// A line by the row of its frame.
#[tactic(auto, unfolding(crate::specs::Follow::entry_of))]
pub fn entry_of(rows: &[u32], l: Line) -> Entry
    ensures { result ≡ entry_of rows.now l }
{
    Entry {
        frame: row_of(rows, l),
        start: l.start,
        release: l.release,
        length: l.length,
    }
}

// Before the first line.
pub fn begin() -> Progress
    ensures { result ≡ begin }
{
    Progress {
        free: 0,
        seen: [false; 17],
        starts: [0; 17],
        due: [0; 64],
    }
}

// The start of the group that its first line tells.
fn told_start(own: Frame, e: Entry) -> u64
    ensures value { result ≡ told_start own e }
    ensures upper_bound { result ≤ e.release }
{
    e.release.saturating_sub(u64::from(own.offset))
}

// The first release of a frame of that group.
fn told_due(own: Frame, e: Entry, g: Frame) -> u64
    requires { e.release < 2 ^ 40 }
    ensures { result ≡ told_due own e g }
{
    told_start(own, e) + u64::from(g.offset)
}

// Whether the group has a line.
fn is_seen(p: Progress, group: u32) -> bool
    requires { group < 17 }
    ensures { result ≡ is_seen p group }
{
    p.seen[group as usize]
}

// Whether the line tells the start of the frame's group.
#[tactic(auto, unfolding(crate::specs::Follow::is_told))]
fn is_told(p: Progress, own: Frame, g: Frame) -> bool
    requires { own.group < 17 }
    ensures { result ≡ is_told p own g }
{
    !is_seen(p, own.group) && g.group == own.group
}

// Whether a frame whose next release is d stands against the line.
#[tactic(auto, unfolding(crate::specs::Follow::is_against))]
fn is_against(free: u64, own: Frame, e: Entry, g: Frame, d: u64) -> bool
    ensures { result ≡ is_against free own e g d }
{
    free.max(d) < e.start || d <= e.start && g.priority < own.priority
}

// Whether it does, or, where the line tells its group's start, stands against one of the lines before.
#[tactic(auto, unfolding(crate::specs::Follow::hinders))]
fn does_hinder(p: Progress, own: Frame, e: Entry, g: Frame, d: u64) -> bool
    requires { (own.group < 17) × (g.group < 17) × (e.release < 2 ^ 40) }
    ensures { result ≡ hinders p own e g d }
{
    if is_told(p, own, g) {
        let first = told_due(own, e, g);
        return first < d || is_against(p.free, own, e, g, first);
    }
    is_seen(p, g.group) && is_against(p.free, own, e, g, d)
}

// Whether some row hinders the line.
fn some_hinders(lengths: [[u32; 9]; 2], rows: &[u32], p: Progress, own: Frame, e: Entry) -> bool
    requires accepted { Accepted rows.now }
    requires own_value { (own ≡ row (frames_of lengths rows.now) e.frame) × (own.group < 17) × (e.release < 2 ^ 40) }
    ensures { result ≡ exists (row_hinders (frames_of lengths rows.now) p e) (range 0 (length (frames_of lengths rows.now))) }
{
    let due = p.due;
    let n = rows.len() / ROW;
    for i in 0..n {
        if does_hinder(p, own, e, table_checks::frame(lengths, rows, i), due[i]) {
            return true;
        }
    }
    false
}

// The next release of the line's own frame, with what the line tells.
#[tactic(auto, unfolding(crate::specs::Follow::due_with))]
fn due_with(p: Progress, own: Frame, e: Entry) -> u64
    requires { (e.frame < 64) × (own.group < 17) × (e.release < 2 ^ 40) }
    ensures { result ≡ due_with p own e own (due_of p.due e.frame) }
{
    if is_told(p, own, own) {
        told_due(own, e, own)
    } else {
        p.due[e.frame]
    }
}

// Whether the line's instance is due, and has a length that its frame can have.
#[tactic(auto, unfolding(crate::specs::Follow::is_due))]
fn is_due(p: Progress, own: Frame, e: Entry) -> bool
    requires { (e.frame < 64) × (own.group < 17) × (e.release < 2 ^ 40) }
    ensures { result ≡ is_due p own e }
{
    1 <= e.length
        && e.length <= u64::from(own.length)
        && p.free <= e.start
        && e.release <= e.start
        && due_with(p, own, e) == e.release
}

// Whether the bus rule allows the line.
pub fn is_allowed(lengths: [[u32; 9]; 2], rows: &[u32], p: Progress, e: Entry) -> bool
    requires accepted { Accepted rows.now }
    requires release_bound { e.release < 2 ^ 40 }
    ensures { result ≡ is_allowed (frames_of lengths rows.now) p e }
{
    if rows.len() / ROW <= e.frame {
        return false;
    }
    let own = table_checks::frame(lengths, rows, e.frame);
    is_due(p, own, e) && !some_hinders(lengths, rows, p, own, e)
}

// The earliest first release of a frame whose group has no line yet, where it was d.
#[tactic(auto, unfolding(crate::specs::Follow::earliest))]
fn earliest_after(free: u64, own: Frame, e: Entry, g: Frame, d: u64) -> u64
    requires { e.start < 2 ^ 40 }
    ensures { result ≡ earliest free own e g d }
{
    if g.priority < own.priority {
        return e.start + 1;
    }
    if free < e.start {
        return e.start;
    }
    d
}

// What is known of the next release of another frame.
#[tactic(auto, unfolding(crate::specs::Follow::due_next))]
fn due_next(p: Progress, own: Frame, e: Entry, g: Frame, d: u64) -> u64
    requires { (own.group < 17) × (g.group < 17) × (e.release < 2 ^ 40) × (e.start < 2 ^ 40) }
    ensures { result ≡ due_next p own e g d }
{
    if is_told(p, own, g) {
        return told_due(own, e, g);
    }
    if is_seen(p, g.group) {
        return d;
    }
    earliest_after(p.free, own, e, g, d)
}

// What is known of the next release of row i, of which d was known.
#[tactic(auto, unfolding(crate::specs::Follow::due_after))]
fn due_after(
    lengths: [[u32; 9]; 2],
    rows: &[u32],
    p: Progress,
    own: Frame,
    e: Entry,
    i: usize,
    d: u64,
) -> u64
    requires accepted { Accepted rows.now }
    requires d_value { (d ≡ due_of p.due i) × (own ≡ row (frames_of lengths rows.now) e.frame) × (own.group < 17) × (e.release < 2 ^ 40) × (e.start < 2 ^ 40) }
    ensures { result ≡ due_after (frames_of lengths rows.now) p e i }
{
    if i == e.frame {
        return e.release + u64::from(own.period);
    }
    due_next(p, own, e, table_checks::frame(lengths, rows, i), d)
}

// The starts of the groups that have a line.
#[tactic(auto, unfolding(crate::specs::Follow::starts_after))]
fn starts_after(p: Progress, own: Frame, e: Entry) -> [u64; 17]
    requires { own.group < 17 }
    ensures { result ≡ starts_after p own e }
{
    let mut starts = p.starts;
    if !is_seen(p, own.group) {
        starts[own.group as usize] = told_start(own, e);
    }
    starts
}

// What is known of the next releases.
fn dues_after(lengths: [[u32; 9]; 2], rows: &[u32], p: Progress, own: Frame, e: Entry) -> [u64; 64]
    requires accepted { Accepted rows.now }
    requires own_value { (own ≡ row (frames_of lengths rows.now) e.frame) × (own.group < 17) × (e.release < 2 ^ 40) × (e.start < 2 ^ 40) }
    ensures { result ≡ map (due_after (frames_of lengths rows.now) p e) (range 0 64) }
{
    let known = p.due;
    let mut due = [0u64; 64];
    for i in 0..64 {
        due[i] = due_after(lengths, rows, p, own, e, i, known[i]);
    }
    due
}

// What the lines say with this one, which is allowed.
pub fn advance(lengths: [[u32; 9]; 2], rows: &[u32], p: Progress, e: Entry) -> Progress
    requires accepted { Accepted rows.now }
    requires frame_in_bounds { (e.frame < length (frames_of lengths rows.now)) × (e.release < 2 ^ 40) × (e.start < 2 ^ 40) × (e.length < 2 ^ 40) }
    ensures { result ≡ advance (frames_of lengths rows.now) p e }
{
    let own = table_checks::frame(lengths, rows, e.frame);
    let mut seen = p.seen;
    seen[own.group as usize] = true;
    Progress {
        free: e.start + e.length,
        seen,
        starts: starts_after(p, own, e),
        due: dues_after(lengths, rows, p, own, e),
    }
}

// What the lines say with this one, after n others, or its number, from 1, where no starts allow it.
pub fn follow_line(
    lengths: [[u32; 9]; 2],
    rows: &[u32],
    p: Progress,
    n: usize,
    e: Entry,
) -> Result<Progress, usize>
    requires accepted { Accepted rows.now }
    requires n_bound { (n < 2 ^ 40) × (e.release < 2 ^ 40) × (e.start < 2 ^ 40) × (e.length < 2 ^ 40) }
    ensures { result ≡ follow_line (frames_of lengths rows.now) p n e }
{
    if is_allowed(lengths, rows, p, e) {
        Ok(advance(lengths, rows, p, e))
    } else {
        Err(n + 1)
    }
}

// The start of a group as it is shown: the last end where it has no line.
#[tactic(auto, unfolding(crate::specs::Follow::start_shown))]
pub fn start_shown(p: Progress, group: u32) -> u64
    requires { group < 17 }
    ensures { result ≡ start_shown p group }
{
    if is_seen(p, group) {
        p.starts[group as usize]
    } else {
        p.free
    }
}
