// What is prepared once for a judged row k, in one area beside the rows of the table. For each group: from which place on its frames ahead
// of k are listed, how many they are, their cycle, after which they look the same again, and the group's hyperperiod. Then the rows of the
// frames ahead, group by group. Then of each row of the table the priority and the length of its frame, and an inverse of the period to divide by, of which nothing
// is promised: a quotient that it gives is looked at. Group, period and offset are read from the rows.
ghost use Rattle.std.specs.Prelude.{◌≡◌, ◌+◌, ◌<◌, ◌≤◌, length};
ghost use Rattle.bus_model.specs.Frame.{row};
ghost use Rattle.table_checks.specs.Frames.{frames_of};
ghost use Rattle.table_checks.specs.Checks.{Loadable, Accepted};
ghost use Rattle.workload.specs.Prepared.{table_by, table_of, first_in, count_in, cycle_in, hyper_in, part_of, Filled, Prepared};

use crate::groups::by_group;
use bus_model::Frame;
use table_checks::{GROUP, OFFSET, PERIOD, ROW};

// The area is one of plain numbers: fixed memory, passed on as one by six crates.
pub const GROUPS: usize = 16;

// A group has at most so many rows.
pub const GROUP_ROWS: usize = 64;

// So many numbers has a group, at the start of the area;
pub const GROUP_NUMBERS: usize = 4;

// from here on the rows of the frames ahead stand,
pub const LISTED: usize = 64;

// from here on the numbers of each row,
pub const NUMBERS: usize = 128;

// so many of them,
const ROW_NUMBERS: usize = 3;

// and so many numbers the area has.
pub const AREA: usize = 320;

// A frame of the table, and the inverse of its period.
#[derive(Clone, Copy)]
pub struct Row {
    pub frame: Frame,
    pub inverse: u32,
}

// Row i, all zeros where there is none.
pub fn row_at(rows: &[u32], prepared: &[u32], i: usize) -> Row
    requires { Filled rows.now prepared.now }
    ensures { result.frame ≡ row (table_of rows.now prepared.now) i }
{
    if rows.len() / ROW <= i {
        let none = Frame {
            group: 0,
            priority: 0,
            length: 0,
            period: 0,
            offset: 0,
        };
        return Row {
            frame: none,
            inverse: 0,
        };
    }
    let at = NUMBERS + ROW_NUMBERS * i;
    let frame = Frame {
        group: rows[ROW * i + GROUP],
        priority: u64::from(prepared[at]),
        length: prepared[at + 1],
        period: rows[ROW * i + PERIOD],
        offset: rows[ROW * i + OFFSET],
    };
    Row {
        frame,
        inverse: prepared[at + 2],
    }
}

// From which place on the frames ahead of group i + 1 are listed: so many are listed before them.
pub fn first_of(prepared: &[u32], i: usize) -> usize
    requires { (length prepared.now ≡ 320) × (i < 16) }
    ensures { result ≡ first_in prepared.now i }
{
    prepared[GROUP_NUMBERS * i] as usize
}

// How many they are.
pub fn count_of(prepared: &[u32], i: usize) -> usize
    requires { (length prepared.now ≡ 320) × (i < 16) }
    ensures { result ≡ count_in prepared.now i }
{
    prepared[GROUP_NUMBERS * i + 1] as usize
}

// After how many ticks they look the same again.
pub fn cycle_of(prepared: &[u32], i: usize) -> u32
    requires { (length prepared.now ≡ 320) × (i < 16) }
    ensures { result ≡ cycle_in prepared.now i }
{
    prepared[GROUP_NUMBERS * i + 2]
}

// The hyperperiod of all the group's frames.
pub fn hyperperiod_of(prepared: &[u32], i: usize) -> u32
    requires { (length prepared.now ≡ 320) × (i < 16) }
    ensures { result ≡ hyper_in prepared.now i }
{
    prepared[GROUP_NUMBERS * i + 3]
}

// Their rows.
pub fn part_of(prepared: &[u32], i: usize) -> &[u32]
    requires { (length prepared.now ≡ 320) × (i < 16) × (first_in prepared.now i + count_in prepared.now i ≤ 64) }
    ensures { result.now ≡ part_of prepared.now i }
{
    let from = LISTED + first_of(prepared, i);
    let to = from + count_of(prepared, i);
    &prepared[from..to]
}

// 2^32 / period, rounded up, and 0 where that does not fit.
fn inverse_of(period: u32) -> u32 {
    if period == 0 {
        0
    } else {
        (u32::MAX / period).wrapping_add(1)
    }
}

// Puts the numbers of each row of an accepted table into an area, by the lengths loaded.
fn fill(lengths: [[u32; 9]; 2], rows: &[u32], area: &mut [u32])
    requires { Accepted rows.now × (length area.old ≡ 192) }
    ensures { table_by rows.now area.new ≡ frames_of lengths rows.now }
{
    for i in 0..rows.len() / ROW {
        let g = table_checks::frame(lengths, rows, i);
        let at = ROW_NUMBERS * i;
        area[at] = g.priority as u32;
        area[at + 1] = g.length;
        area[at + 2] = inverse_of(g.period);
    }
}

// Prepares the area for a frame k of an accepted table.
pub fn prepare(lengths: [[u32; 9]; 2], rows: &[u32], k: Frame, area: &mut [u32])
    requires { Loadable lengths × Accepted rows.now × (length area.old ≡ 320) }
    ensures area_after { table_of rows.now area.new ≡ frames_of lengths rows.now }
    ensures prepared { Prepared rows.now area.new k }
{
    by_group(lengths, rows, k, &mut area[0..NUMBERS]);
    fill(lengths, rows, &mut area[NUMBERS..AREA]);
}
