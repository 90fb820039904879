// The sheet of a log: the busiest stretch, and then a line for each row of the table.
ghost use Rattle.std.specs.Prelude.{◌≡◌, ◌+◌, ◌*◌, ◌/◌, ◌<◌, ◌≤◌, ◌^◌, length};
ghost use Rattle.table_checks.specs.Columns.{columns};
ghost use Rattle.log_reader.specs.Laws.{Small};
ghost use Rattle.log_load.specs.Sheet.{response, seen_of, first_line, row_line, line_of, lines_from};
ghost use Rattle.log_load.specs.Steps.{with_line};
ghost use Rattle.log_load.specs.Log.{lines};

use crate::{Best, Log, Seen};
use bus_log::Line;
use table_checks::{IDENTIFIER, ROW};

// The characters of the first line, and of the others, with their line feeds.
pub const FIRST: usize = 23;

pub const WIDE: usize = 42;

const LINE_FEED: u8 = 10;

// The end minus the queueing.
fn response(l: Line) -> u64
    requires { Small l }
    ensures value { result ≡ response l }
    ensures small { result < 2 ^ 41 }
{
    (l.start + l.length).saturating_sub(l.release)
}

// What is seen of row i, with one line more.
#[tactic(auto, unfolding(crate::specs::Steps::with_line))]
fn with_line(rows: &[u32], i: usize, l: Line, seen: Seen) -> Seen
    requires columns_in_bounds { columns * i + columns ≤ length rows.now }
    requires small { Small l × (seen.count ≤ 1600) × (seen.total ≤ 2 ^ 52) }
    ensures value { result ≡ with_line rows.now i l seen }
    ensures small { (result.count ≤ seen.count + 1) × (result.total ≤ seen.total + 2 ^ 41) }
{
    if bus_log::is_named(rows, l, i) {
        let r = response(l);
        Seen {
            count: seen.count + 1,
            most: seen.most.max(r),
            total: seen.total + r,
        }
    } else {
        seen
    }
}

// What is seen of row i.
fn seen_of(rows: &[u32], log: &Log, i: usize) -> Seen
    requires { columns * i + columns ≤ length rows.now }
    ensures { result ≡ seen_of rows.now i (lines log.now) }
{
    let n = log.count();
    let mut seen = Seen {
        count: 0,
        most: 0,
        total: 0,
    };
    for j in 0..n {
        seen = with_line(rows, i, log.line(j), seen);
    }
    seen
}

// Writes identifier, instances, greatest response and sum of responses, and a line feed.
fn write_line(identifier: u32, seen: Seen, line: &mut [u8])
    requires { length line.old ≡ 42 }
    ensures { line.new ≡ row_line identifier seen }
{
    decimal::write(&mut line[0..10], u64::from(identifier));
    decimal::write(&mut line[10..15], seen.count);
    decimal::write(&mut line[15..26], seen.most);
    decimal::write(&mut line[26..41], seen.total);
    line[WIDE - 1] = LINE_FEED;
}

// Writes the line of row i.
fn write_row(rows: &[u32], log: &Log, i: usize, line: &mut [u8])
    requires { (i < length rows.now / columns) × (length line.old ≡ 42) }
    ensures { line.new ≡ line_of rows.now (lines log.now) i }
{
    let seen = seen_of(rows, log, i);
    write_line(rows[ROW * i + IDENTIFIER], seen, line);
}

// Writes the lines of the rows.
pub fn write_rows(rows: &[u32], log: &Log, n: usize, out: &mut [u8])
    requires { (n ≡ length rows.now / columns) × (n ≤ 64) × (length out.old ≡ 42 * n) }
    ensures { out.new ≡ lines_from rows.now (lines log.now) n 0 }
{
    for i in 0..n {
        let from = WIDE * i;
        let to = from + WIDE;
        write_row(rows, log, i, &mut out[from..to]);
    }
}

// Writes the first line.
pub fn write_first(best: Best, line: &mut [u8])
    requires { length line.old ≡ 23 }
    ensures { line.new ≡ first_line best.count best.first }
{
    decimal::write(&mut line[0..11], best.count);
    decimal::write(&mut line[11..22], best.first);
    line[FIRST - 1] = LINE_FEED;
}
