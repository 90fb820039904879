// The longest of the frames on one side of another, and the blocking of a frame.
ghost use Rattle.std.specs.Prelude.{◌≡◌, ◌≤◌, if◌then◌else◌};
ghost use Rattle.arith.specs.Lists.{greatest};
ghost use Rattle.bus_model.specs.Bounds.{ahead, below, blocking};
ghost use Rattle.workload.specs.Prepared.{table_of, Filled};

use crate::prepared::row_at;
use bus_model::Frame;
use table_checks::ROW;

// The greatest largest length of the frames below k, or of those ahead.
pub fn longest(rows: &[u32], prepared: &[u32], k: Frame, is_below: bool) -> u32
    requires { Filled rows.now prepared.now }
    ensures value { result ≡ greatest (λ g. g.length) (if is_below then below (table_of rows.now prepared.now) k else ahead (table_of rows.now prepared.now) k) }
    ensures small { result ≤ 400 }
{
    let mut longest: u32 = 0;
    for i in 0..rows.len() / ROW {
        let g = row_at(rows, prepared, i).frame;
        if (k.priority < g.priority) == is_below {
            longest = longest.max(g.length);
        }
    }
    longest
}

// "Blocking": a frame below k has started a tick earlier at the latest.
pub fn frame_blocking(rows: &[u32], prepared: &[u32], k: Frame) -> u32
    requires { Filled rows.now prepared.now }
    ensures { result ≡ blocking (table_of rows.now prepared.now) k }
{
    longest(rows, prepared, k, true).saturating_sub(1)
}
