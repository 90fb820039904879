// The checks on a table's fields: the first cause against it, or none.
ghost use Rattle.std.specs.Prelude.{◌≡◌, cond, min, ◌+◌, ◌-◌, ◌*◌, ◌/◌, ◌<◌, ◌≤◌, length, eqb};
ghost use Rattle.arith.specs.Multiples.{lcm};
ghost use Rattle.arith.specs.Lists.{sum};
ghost use Rattle.bus_model.specs.Pattern.{of_group, hyperperiod};
ghost use Rattle.table_checks.specs.Columns.{between, is_identifier, within, columns, most_lines, most_numbers};
ghost use Rattle.table_checks.specs.Frames.{unmeasured};
ghost use Rattle.table_checks.specs.Refusal.{failed, check_returns};
ghost use Rattle.table_checks.specs.Checks.{file_size_check, rows_size_check, column_check, columns_check, is_same_frame, stands_earlier, is_other_group, has_second_group, line_check, lines_check, group_check, groups_check, table_check, rows_check};
ghost use Rattle.table_checks.specs.Returns.{file_size_returns, rows_returns};
ghost use Rattle.table_checks.specs.Steps.{Periods};

use crate::{
    CLAIM, Cause, GROUP, IDENTIFIER, KIND, LINE, MALFORMED, MOST_LINES, MOST_NUMBERS, NODE, OFFSET,
    PAYLOAD, PERIOD, ROW, Refusal, UNTERMINATED,
};

// A group's hyperperiod is at most this, and so many releases are in one.
const MOST_TICKS: u64 = 1_000_000;

const MOST_RELEASES: u64 = 256;

const GROUPS: u64 = 16;

pub fn fail(cause: Cause, place: u32) -> Result<(), Refusal>
    ensures { result ≡ failed cause place }
{
    Err(Refusal { cause, place })
}

// The check of a file's length.
pub fn check_length(size: usize) -> Result<(), Refusal>
    ensures value { result ≡ file_size_check size }
    ensures in_numbers { check_returns result ≡ file_size_returns size }
{
    if size == 0 {
        return fail(Cause::FileForm, 0);
    }
    if size % LINE != 0 {
        return fail(Cause::FileForm, 0);
    }
    if MOST_LINES < size / LINE {
        return fail(Cause::TooManyLines, 0);
    }
    Ok(())
}

// The check of how many numbers stand in memory.
pub fn rows_size(size: usize) -> Result<(), Refusal>
    ensures { result ≡ rows_size_check size }
{
    if size == 0 {
        return fail(Cause::RowsLength, 0);
    }
    if size % ROW != 0 {
        return fail(Cause::RowsLength, 0);
    }
    if MOST_NUMBERS < size {
        return fail(Cause::RowsLength, 0);
    }
    Ok(())
}

// Whether v is within low..high.
pub fn is_between(low: u64, high: u64, v: u64) -> bool
    ensures { result ≡ between low high v }
{
    low <= v && v <= high
}

// Whether the identifier is within the limits of its kind.
pub fn is_identifier(kind: u64, identifier: u64) -> bool
    ensures { result ≡ is_identifier kind identifier }
{
    // Kinds are numbers, since rows in memory hold them so, for C.
    if kind == 11 {
        identifier <= 2047
    } else {
        kind == 29 && identifier <= 536_870_911
    }
}

// Whether v is within the limits of column j, where `before` stands in the column before it.
fn is_within(j: usize, before: u64, v: u64) -> bool
    ensures { result ≡ within j before v }
{
    match j {
        NODE | GROUP => is_between(1, 16, v),
        IDENTIFIER => true,
        KIND => is_identifier(v, before),
        PAYLOAD => v <= 8,
        PERIOD | CLAIM => is_between(1, 1_000_000, v),
        OFFSET => v <= 1_000_000,
        _ => false,
    }
}

// The check of column j of line i.
fn column(t: &[u64], i: usize, j: usize) -> Result<(), Refusal>
    requires { (columns * i + columns ≤ length t.now) × (i < most_lines) × (j < columns) }
    ensures { result ≡ column_check t.now i j }
{
    let line = (i + 1) as u32;
    let v = t[ROW * i + j];
    if v == UNTERMINATED {
        return fail(Cause::FileForm, line);
    }
    if v == MALFORMED {
        return fail(Cause::Notation, line);
    }
    let before = t[ROW * i + j.saturating_sub(1)];
    if is_within(j, before, v) {
        Ok(())
    } else {
        fail(Cause::Limit, line)
    }
}

// The check of the columns of line i.
fn columns(t: &[u64], i: usize) -> Result<(), Refusal>
    requires { (columns * i + columns ≤ length t.now) × (i < most_lines) }
    ensures { result ≡ columns_check t.now i }
{
    for j in 0..ROW {
        column(t, i, j)?;
    }
    Ok(())
}

// Whether the kind and identifier of line i stand on line m.
fn is_same_frame(t: &[u64], i: usize, m: usize) -> bool
    requires { (columns * i + columns ≤ length t.now) × (columns * m + columns ≤ length t.now) }
    ensures { result ≡ is_same_frame t.now i m }
{
    t[ROW * m + IDENTIFIER] == t[ROW * i + IDENTIFIER] && t[ROW * m + KIND] == t[ROW * i + KIND]
}

// Whether they stand on an earlier line.
fn stands_earlier(t: &[u64], i: usize) -> bool
    requires { columns * i + columns ≤ length t.now }
    ensures { result ≡ stands_earlier t.now i }
{
    for m in 0..i {
        if is_same_frame(t, i, m) {
            return true;
        }
    }
    false
}

// Whether the node of line i stands in another group on line m.
fn is_other_group(t: &[u64], i: usize, m: usize) -> bool
    requires { (columns * i + columns ≤ length t.now) × (columns * m + columns ≤ length t.now) }
    ensures { result ≡ is_other_group t.now i m }
{
    t[ROW * m + NODE] == t[ROW * i + NODE] && t[ROW * m + GROUP] != t[ROW * i + GROUP]
}

// Whether it does on an earlier line.
// Not one with `stands_earlier`: a test handed over would need a clause for its indexing.
fn has_second_group(t: &[u64], i: usize) -> bool
    requires { columns * i + columns ≤ length t.now }
    ensures { result ≡ has_second_group t.now i }
{
    for earlier in 0..i {
        if is_other_group(t, i, earlier) {
            return true;
        }
    }
    false
}

// The check of line i.
fn line(t: &[u64], i: usize) -> Result<(), Refusal>
    requires { (columns * i + columns ≤ length t.now) × (i < most_lines) }
    ensures { result ≡ line_check t.now i }
{
    columns(t, i)?;
    if stands_earlier(t, i) {
        return fail(Cause::Duplicate, (i + 1) as u32);
    }
    if has_second_group(t, i) {
        fail(Cause::SecondGroup, (i + 1) as u32)
    } else {
        Ok(())
    }
}

// The check of the lines.
fn lines(t: &[u64]) -> Result<(), Refusal>
    requires { length t.now ≤ most_numbers }
    ensures { result ≡ lines_check t.now }
{
    for i in 0..t.len() / ROW {
        line(t, i)?;
    }
    Ok(())
}

// The least common multiple of h and the period of a frame, where it is the group's.
fn joined(h: u64, group: u64, frame_group: u64, period: u64) -> u64
    requires { (0 < h) × (h ≤ 1000000) × (period ≤ 1000000) }
    ensures { result ≡ cond (eqb frame_group group) (lcm period h) h }
{
    if frame_group == group {
        arith::lcm(period, h)
    } else {
        h
    }
}

// The group's hyperperiod, or 1000001 where it is greater than that.
pub fn bounded_hyperperiod(t: &[u64], group: u64) -> u64
    requires { Periods t.now }
    ensures { result ≡ min (hyperperiod (of_group (unmeasured t.now) group)) 1000001 }
{
    let mut h = 1;
    for i in (0..t.len() / ROW).rev() {
        h = joined(h, group, t[ROW * i + GROUP], t[ROW * i + PERIOD]);
        if MOST_TICKS < h {
            return MOST_TICKS + 1;
        }
    }
    h
}

// The releases of a frame in a hyperperiod, where it is the group's.
fn frame_releases(h: u64, group: u64, frame_group: u64, period: u64) -> u64
    requires { 0 < period }
    ensures { result ≡ cond (eqb frame_group group) (h / period) 0 }
{
    if frame_group == group { h / period } else { 0 }
}

// The releases of the group's frames in a hyperperiod.
fn group_releases(t: &[u64], group: u64, h: u64) -> u64
    requires periods { Periods t.now }
    requires t_len_bound { (length t.now ≤ most_numbers) × (h ≤ 1000000) }
    ensures { result ≡ sum (λ g. h / g.period) (of_group (unmeasured t.now) group) }
{
    let mut sum = 0;
    for i in (0..t.len() / ROW).rev() {
        sum = frame_releases(h, group, t[ROW * i + GROUP], t[ROW * i + PERIOD]) + sum;
    }
    sum
}

// The check of a group.
fn group(t: &[u64], group: u64) -> Result<(), Refusal>
    requires periods { Periods t.now }
    requires t_len_bound { (length t.now ≤ most_numbers) × (group ≤ 16) }
    ensures { result ≡ group_check (unmeasured t.now) group }
{
    let h = bounded_hyperperiod(t, group);
    if MOST_TICKS < h {
        return fail(Cause::Hyperperiod, group as u32);
    }
    if MOST_RELEASES < group_releases(t, group, h) {
        fail(Cause::Releases, group as u32)
    } else {
        Ok(())
    }
}

// The check of the groups.
fn groups(t: &[u64]) -> Result<(), Refusal>
    requires periods { Periods t.now }
    requires t_len_bound { length t.now ≤ most_numbers }
    ensures { result ≡ groups_check (unmeasured t.now) }
{
    for j in 1..=GROUPS {
        group(t, j)?;
    }
    Ok(())
}

// The check of a table of any size.
pub fn check_fields(t: &[u64]) -> Result<(), Refusal>
    ensures value { result ≡ rows_check t.now }
    ensures in_numbers { check_returns result ≡ rows_returns t.now }
{
    rows_size(t.len())?;
    table(t)
}

// The check of a table whose size is right.
pub fn table(t: &[u64]) -> Result<(), Refusal>
    requires { length t.now ≤ most_numbers }
    ensures { result ≡ table_check t.now }
{
    lines(t)?;
    groups(t)
}
