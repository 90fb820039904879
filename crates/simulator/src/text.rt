// The log's text.
ghost use Rattle.std.specs.Prelude.{◌≡◌, ◌++◌, ◌+◌, ◌*◌, ◌<◌, ◌≤◌, length, drop};
ghost use Rattle.table_checks.specs.Table.{frames};
ghost use Rattle.table_checks.specs.Columns.{columns};
ghost use Rattle.simulator.specs.Text.{line_of, line_text, log_text, lines_from};
ghost use Rattle.simulator.specs.Theory.Bounds.{Within};

use crate::{Engine, turn};
use bus_log::{Entry, Line};
use table_checks::{IDENTIFIER, KIND, ROW, Table};

// The characters of a line with its line feed.
pub const LINE: usize = 40;

// The line of a transmission.
fn line_of(rows: &[u32], e: Entry) -> Line
    requires { (columns * e.frame + columns ≤ length rows.now) × (e.frame < 64) }
    ensures { result ≡ line_of rows.now e }
{
    let at = ROW * e.frame;
    Line {
        start: e.start,
        identifier: u64::from(rows[at + IDENTIFIER]),
        kind: u64::from(rows[at + KIND]),
        release: e.release,
        length: e.length,
    }
}

// Writes a line.
fn write_line(l: Line, out: &mut [u8])
    requires { length out.old ≡ 40 }
    ensures { out.new ≡ line_text l }
{
    decimal::write(&mut out[0..11], l.start);
    decimal::write(&mut out[11..21], l.identifier);
    decimal::write(&mut out[21..24], l.kind);
    decimal::write(&mut out[24..35], l.release);
    decimal::write(&mut out[35..39], l.length);
    out[39] = 10;
}

// Writes the lines of so many steps.
pub fn write_log(table: &Table, first: Engine, lines: usize, out: &mut [u8])
    requires { (Within first 2000000) × (lines ≤ 1600) × (40 * lines ≤ length out.old) }
    ensures { out.new ≡ log_text (lines_from (frames table.now) table.now.rows.now first lines 0) ++ drop (40 * lines) out.old }
{
    let mut s = first;
    for i in 0..lines {
        let v = generator::drawn(s.drawn);
        let e = turn::entry_next(table, s, v);
        let from = LINE * i;
        let to = from + LINE;
        write_line(line_of(table.rows, e), &mut out[from..to]);
        s = turn::moved_by(table, s, v, e);
    }
}
