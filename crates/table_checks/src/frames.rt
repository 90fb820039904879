// A row as a frame: its priority and its largest length, by the lengths that were loaded: kind 11, then kind 29; by payload bytes.
ghost use Rattle.std.specs.Prelude.{◌≡◌};
ghost use Rattle.bus_model.specs.Frame.{row};
ghost use Rattle.table_checks.specs.Frames.{standard_lengths, priority_of, largest_length, frames_of};

use crate::{GROUP, IDENTIFIER, KIND, OFFSET, PAYLOAD, PERIOD, ROW};
use bus_model::Frame;

// Document 01's lengths, in ticks.
const STANDARD: [[u32; 9]; 2] = [
    [55, 65, 75, 85, 95, 105, 115, 125, 135],
    [80, 90, 100, 110, 120, 130, 140, 150, 160],
];

// Document 01's lengths.
pub fn standard_lengths() -> [[u32; 9]; 2]
    ensures { result ≡ standard_lengths }
{
    STANDARD
}

// The place of a frame in the order in which waiting frames are sent: the smaller goes first. A short frame comes just before
// the 2^18 long ones that have its identifier as their top 11 bits.
pub fn priority(kind: u32, identifier: u32) -> u64
    ensures { result ≡ priority_of kind identifier }
{
    // Kinds are numbers, since rows in memory hold them so, for C.
    if kind == 11 {
        524288 * identifier as u64
    } else {
        2 * identifier as u64 + 1
    }
}

// The largest length of a frame, 0 where the payload is none that a frame can have.
pub fn largest_length(lengths: [[u32; 9]; 2], kind: u32, payload: u32) -> u32
    ensures { result ≡ largest_length lengths kind payload }
{
    if 8 < payload {
        return 0;
    }
    let s = payload as usize;
    // Kinds are numbers, since rows in memory hold them so, for C.
    if kind == 11 {
        lengths[0][s]
    } else {
        lengths[1][s]
    }
}

// The frame in row i, all zeros where there is no such row.
pub fn frame(lengths: [[u32; 9]; 2], rows: &[u32], i: usize) -> Frame
    ensures { result ≡ row (frames_of lengths rows.now) i }
{
    if rows.len() / ROW <= i {
        return Frame {
            group: 0,
            priority: 0,
            length: 0,
            period: 0,
            offset: 0,
        };
    }
    let at = ROW * i;
    let identifier = rows[at + IDENTIFIER];
    let kind = rows[at + KIND];
    let payload = rows[at + PAYLOAD];
    Frame {
        group: rows[at + GROUP],
        priority: priority(kind, identifier),
        length: largest_length(lengths, kind, payload),
        period: rows[at + PERIOD],
        offset: rows[at + OFFSET],
    }
}
