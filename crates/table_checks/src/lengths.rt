// The check of loaded lengths: the first cause against them, or none.
ghost use Rattle.std.specs.Prelude.{◌≡◌, ◌<◌};
ghost use Rattle.table_checks.specs.Columns.{is_length};
ghost use Rattle.table_checks.specs.Refusal.{check_returns};
ghost use Rattle.table_checks.specs.Checks.{is_outside, breaks_limits, lengths_check};
ghost use Rattle.table_checks.specs.Returns.{lengths_returns};

use crate::checks::{fail, is_between};
use crate::{Cause, PAYLOADS, Refusal};

// The limits of a length.
const LEAST: u64 = 47;

const MOST: u64 = 400;

// Whether v is within the limits of a length, where `before` stands before it on its line.
fn is_length(before: u32, v: u32) -> bool
    ensures { result ≡ is_length before v }
{
    is_between(LEAST, MOST, u64::from(v)) && before <= v
}

// Whether number s of line k is outside its limits, or smaller than the one before it on its line.
fn is_outside(lengths: [[u32; 9]; 2], k: usize, s: usize) -> bool
    requires { (k < 2) × (s < 9) }
    ensures { result ≡ is_outside lengths k s }
{
    let v = lengths[k][s];
    let before = lengths[k][s.saturating_sub(1)];
    !is_length(before, v)
}

// Whether some number of line k is.
fn breaks_limits(lengths: [[u32; 9]; 2], k: usize) -> bool
    requires { k < 2 }
    ensures { result ≡ breaks_limits lengths k }
{
    for s in 0..PAYLOADS {
        if is_outside(lengths, k, s) {
            return true;
        }
    }
    false
}

// Checks lengths: each is within its limits, and none is smaller than the one before it on its line.
pub fn check_lengths(lengths: [[u32; 9]; 2]) -> Result<(), Refusal>
    ensures value { result ≡ lengths_check lengths }
    ensures in_numbers { check_returns result ≡ lengths_returns lengths }
{
    if breaks_limits(lengths, 0) {
        return fail(Cause::Length, 1);
    }
    if breaks_limits(lengths, 1) {
        return fail(Cause::Length, 2);
    }
    Ok(())
}
