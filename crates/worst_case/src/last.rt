// The row of the frame that ranks last, and whether every offset is below its period.
ghost use Rattle.std.specs.Prelude.{◌≡◌, ◌<◌, length};
ghost use Rattle.bus_model.specs.Worst.{last_row, all_early};
ghost use Rattle.table_checks.specs.Table.{frames};
ghost use Rattle.worst_case.specs.Steps.{later_of};

use table_checks::Table;

// The row of the frame that ranks last in an accepted table.
pub fn last_row(table: &Table) -> usize
    ensures value { result ≡ last_row (frames table.now) }
    ensures listed { result < length (frames table.now) }
{
    let lines = table.count();
    let mut last = 0;
    for i in 1..lines {
        last = later(table, last, i);
    }
    last
}

// Of two rows the one whose frame ranks behind the other's.
fn later(table: &Table, a: usize, b: usize) -> usize
    ensures { result ≡ later_of (frames table.now) a b }
{
    let first = table.frame(a);
    let second = table.frame(b);
    if first.priority < second.priority {
        b
    } else {
        a
    }
}

// Whether every offset is below its period.
pub fn all_early(table: &Table) -> bool
    ensures { result ≡ all_early (frames table.now) }
{
    let lines = table.count();
    for i in 0..lines {
        let frame = table.frame(i);
        if frame.period <= frame.offset {
            return false;
        }
    }
    true
}
