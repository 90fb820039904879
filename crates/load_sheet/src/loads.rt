// A node's frames, its group and its load.
ghost use Rattle.std.specs.Prelude.{◌≡◌, true, cond, ◌*◌, ◌/◌, ◌≤◌, eqb};
ghost use Rattle.load_sheet.specs.Load.{work_in};
ghost use Rattle.load_sheet.specs.Sheet.{has_frames, node_frames, group_of, node_load};

use crate::Load;
use bus_model::Frame;
use table_checks::{GROUP, NODE, ROW, Table};

// Whether the node has frames.
pub fn has_frames(rows: &[u32], node: u32) -> bool
    ensures { result ≡ has_frames rows.now node }
{
    for i in 0..rows.len() / ROW {
        if rows[ROW * i + NODE] == node {
            return true;
        }
    }
    false
}

// The group in which the node stands, 0 where it has no frames.
fn group_of(rows: &[u32], node: u32) -> u32
    ensures { result ≡ group_of rows.now node }
{
    for i in 0..rows.len() / ROW {
        if rows[ROW * i + NODE] == node {
            return rows[ROW * i + GROUP];
        }
    }
    0
}

// The work of a frame in h ticks, where its sender is the node.
fn frame_work(h: u64, sender: u32, node: u32, g: Frame) -> u64
    requires { (h ≤ 1000000) × (1 ≤ g.period) × (g.length ≤ 400) }
    ensures value { result ≡ cond (eqb sender node) (g.length * (h / g.period)) 0 }
    ensures small { result ≤ 400000000 }
{
    if sender == node {
        g.length as u64 * (h / g.period as u64)
    } else {
        0
    }
}

// The work of the node's frames in h ticks.
fn work(table: &Table, node: u32, h: u64) -> u64
    requires { h ≤ 1000000 }
    ensures value { result ≡ work_in h (node_frames table.now.lengths table.now.rows.now node) }
    ensures small { result ≤ 400000000 * 64 }
{
    let mut sum = 0;
    for i in (0..table.count()).rev() {
        let g = table.frame(i);
        sum = frame_work(h, table.rows[ROW * i + NODE], node, g) + sum;
    }
    sum
}

// The load of a node that has frames. Its divisor is the hyperperiod of the node's group, and so are the ticks that its work is of.
pub fn node_load(table: &Table, node: u32) -> Load
    requires { has_frames table.now.rows.now node ≡ true }
    ensures { result ≡ node_load table.now.lengths table.now.rows.now node }
{
    let group = group_of(table.rows, node);
    let divisor = table_checks::hyperperiod(table.rows, group as u64);
    let dividend = work(table, node, divisor) * 10_000;
    Load {
        quotient: dividend / divisor,
        remainder: dividend % divisor,
        divisor,
    }
}
