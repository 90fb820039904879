// The rows of the frames ahead of k, group by group, and after how many ticks these look the same again.
ghost use Rattle.std.specs.Prelude.{◌≡◌, ◌≤◌, ◌&&◌, length, take, ◌==◌, nat_le};
ghost use mathlib.Core.List.{Memᴰ as Mem};
ghost use Rattle.arith.specs.Multiples.{lcm};
ghost use Rattle.bus_model.specs.declared.Frame.{Frame};
ghost use Rattle.bus_model.specs.Pattern.{of_group, hyperperiod};
ghost use Rattle.bus_model.specs.Bounds.{ahead};
ghost use Rattle.bus_model.specs.Theory.Hyperperiod.{hyper_of};
ghost use Rattle.table_checks.specs.Frames.{frames_of};
ghost use Rattle.workload.specs.Prepared.{Fine, frames_in, FineTable, ByGroup};

use crate::prepared::{GROUP_NUMBERS, GROUPS, LISTED, NUMBERS};
use bus_model::Frame;
use table_checks::{ROW, frame};

// Whether a frame is the group's and ahead of k.
fn belongs(g: Frame, k: Frame, group: u32) -> bool
    ensures { result ≡ (g.group == group && nat_le g.priority k.priority) }
{
    (g.group == group) & (g.priority <= k.priority)
}

// The least common multiple of h and the period of a frame.
fn joined(h: u32, g: Frame) -> u32
    requires { (1 ≤ h) × (g.period ≤ 1000000) × (lcm g.period h ≤ 1000000) }
    ensures { result ≡ lcm g.period h }
{
    arith::lcm(u64::from(g.period), u64::from(h)) as u32
}

// The hyperperiod of a group: the least common multiple of its frames' periods, from the last on, as the definition takes them together.
fn group_hyperperiod(lengths: [[u32; 9]; 2], rows: &[u32], group: u32) -> u32
    requires fine_table { FineTable (frames_of lengths rows.now) }
    requires le_group { (1 ≤ group) × (group ≤ 16) }
    ensures { result ≡ hyper_of group (frames_of lengths rows.now) }
{
    let mut h: u32 = 1;
    for i in (0..rows.len() / ROW).rev() {
        let g = frame(lengths, rows, i);
        if g.group == group {
            h = joined(h, g);
        }
    }
    h
}

// That of the frames in some rows, which are few of the table's.
fn part_hyperperiod(lengths: [[u32; 9]; 2], rows: &[u32], part: &[u32]) -> u32
    requires fine { (g : Frame) → Mem g (frames_in (frames_of lengths rows.now) part.now) → Fine g }
    requires part_bound { hyperperiod (frames_in (frames_of lengths rows.now) part.now) ≤ 1000000 }
    ensures { result ≡ hyperperiod (frames_in (frames_of lengths rows.now) part.now) }
{
    let mut h: u32 = 1;
    for i in (0..part.len()).rev() {
        h = joined(h, frame(lengths, rows, part[i] as usize));
    }
    h
}

// Puts the rows of a group's frames ahead of k at the start of an area, and answers how many they are.
fn gather(lengths: [[u32; 9]; 2], rows: &[u32], k: Frame, group: u32, area: &mut [u32]) -> usize
    requires rows_len_bound { length (frames_of lengths rows.now) ≤ 64 }
    requires group_in_bounds { length (of_group (ahead (frames_of lengths rows.now) k) group) ≤ length area.old }
    ensures area_after { frames_in (frames_of lengths rows.now) (take result area.new) ≡ of_group (ahead (frames_of lengths rows.now) k) group }
    ensures count { result ≡ length (of_group (ahead (frames_of lengths rows.now) k) group) }
{
    let mut found = 0;
    for i in 0..rows.len() / ROW {
        if belongs(frame(lengths, rows, i), k, group) {
            area[found] = i as u32;
            found += 1;
        }
    }
    found
}

// Lists the rows of the frames ahead of k, group by group.
pub fn by_group(lengths: [[u32; 9]; 2], rows: &[u32], k: Frame, lists: &mut [u32])
    requires fine_table { FineTable (frames_of lengths rows.now) }
    requires lists_len { length lists.old ≡ 128 }
    ensures { ByGroup (frames_of lengths rows.now) k lists.new }
{
    let mut listed = 0;
    for j in 0..GROUPS {
        let group = (j + 1) as u32;
        let from = LISTED + listed;
        let count = gather(lengths, rows, k, group, &mut lists[from..NUMBERS]);
        let to = from + count;
        let cycle = part_hyperperiod(lengths, rows, &lists[from..to]);
        let hyperperiod = group_hyperperiod(lengths, rows, group);
        let at = GROUP_NUMBERS * j;
        lists[at] = listed as u32;
        lists[at + 1] = count as u32;
        lists[at + 2] = cycle;
        lists[at + 3] = hyperperiod;
        listed += count;
    }
}
