// The busiest stretch: two windows move along the log, one so that it begins with each line, the other so that it ends with each.
// A stretch's busy ticks are those before its end that are not before its start, and each walk goes once through the lines.
ghost use Rattle.std.specs.Prelude.{◌≡◌, ℕ, ◌+◌, ◌-◌, ◌<◌, ◌≤◌, ◌^◌};
ghost use Rattle.bus_log.specs.Log.{last_end};
ghost use Rattle.log_load.specs.Busy.{busy_in, most_busy, first_busiest};
ghost use Rattle.log_load.specs.Steps.{better, Walked, Carries, Covers, Before, Tried};
ghost use Rattle.log_load.specs.Log.{lines};

use crate::{Best, Log, Walk, Window};

// The walk on to tick t.
fn walk_to(log: &Log, walk: Walk, t: u64) -> Walk
    requires t_bound { t < 2 ^ 42 }
    requires walked { Walked (lines log.now) t walk.line walk.done }
    ensures walked { Walked (lines log.now) t result.line result.done }
    ensures busy_value { result.busy ≡ busy_in (lines log.now) t 0 }
{
    let n = log.count();
    let mut done = walk.done;
    for line in walk.line..n {
        let l = log.line(line);
        if t < l.start + l.length {
            let busy = done + t.saturating_sub(l.start);
            return Walk { line, done, busy };
        }
        done += l.length;
    }
    Walk {
        line: n,
        done,
        busy: done,
    }
}

// The stretch with more busy ticks, or of two with as many the earlier.
#[tactic(auto, unfolding(crate::specs::Steps::better))]
fn better(a: Best, b: Best) -> Best
    ensures { result ≡ better a b }
{
    if a.count < b.count || a.count == b.count && b.first < a.first {
        b
    } else {
        a
    }
}

// The window on to begin at s, where the stretch is within the log.
fn move_to(log: &Log, window: Window, w: u64, last: u64, s: u64) -> Window
    requires last_value { (last ≡ last_end (lines log.now)) × (w ≤ last) × (last < 2 ^ 41) × (s < 2 ^ 41) }
    requires before { Before (lines log.now) w s window }
    ensures { Before (lines log.now) w s result × Carries (lines log.now) w window.best result.best × Covers (lines log.now) w result.best s }
{
    if last < s + w {
        return window;
    }
    let from = walk_to(log, window.from, s);
    let to = walk_to(log, window.to, s + w);
    let here = Best {
        count: to.busy.saturating_sub(from.busy),
        first: s,
    };
    Window {
        from,
        to,
        best: better(window.best, here),
    }
}

// The window that begins at 0.
fn first_window(log: &Log, w: u64) -> Window
    requires { (w ≤ last_end (lines log.now)) × (w < 2 ^ 41) }
    ensures { (place : ℕ → ℕ) → Tried (lines log.now) w place 0 result }
{
    let start = Walk {
        line: 0,
        done: 0,
        busy: 0,
    };
    let to = walk_to(log, start, w);
    Window {
        from: start,
        to,
        best: Best {
            count: to.busy,
            first: 0,
        },
    }
}

// The busiest stretch of w ticks of an accepted log.
pub fn find(log: &Log, w: u64) -> Best
    requires { (1 ≤ w) × (w ≤ last_end (lines log.now)) }
    ensures { (result.count ≡ most_busy (lines log.now) w) × (result.first ≡ first_busiest (lines log.now) w) }
{
    let n = log.count();
    let last = log.last_end();
    let mut starts = first_window(log, w);
    let mut ends = starts;
    for i in 0..n {
        let l = log.line(i);
        starts = move_to(log, starts, w, last, l.start);
        ends = move_to(log, ends, w, last, (l.start + l.length).saturating_sub(w));
    }
    better(starts.best, ends.best)
}
