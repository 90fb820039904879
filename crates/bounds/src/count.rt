// How many alignments the groups have, and up to which level they are fixed.
ghost use Rattle.std.specs.Prelude.{◌≡◌, ◌+◌, ◌*◌, ◌≤◌, ◌<◌, min, length};
ghost use Rattle.bus_model.specs.Bounds.{alignments, or_empty};
ghost use Rattle.bus_model.specs.Judgement.{deepest_level};
ghost use Rattle.bus_model.specs.Theory.LevelSearch.{group_at};
ghost use Rattle.workload.specs.Prepared.{Fine, Prepared, table_of};

use alignment_walk::count_alignments;
use arith::product;
use bus_model::Frame;
use workload::{GROUPS, hyperperiod_of, part_of};

// No more scenarios are looked at.
const SCENARIO_LIMIT: u32 = 65_536;

// The level at which every group is fixed.
pub const LAST_LEVEL: usize = GROUPS - 1;

// The product of two numbers, cut at one more than the limit.
fn cut_product(a: u32, b: u32) -> u32
    ensures { result ≡ min 65537 (a * b) }
{
    product(a, b).min(SCENARIO_LIMIT as u64 + 1) as u32
}

// The number of alignments of a group, an empty one counting 1.
fn alignment_count(rows: &[u32], prepared: &[u32], k: Frame, group: usize) -> u32
    requires prepared { Prepared rows.now prepared.now k }
    requires le_group { (1 ≤ group) × (group ≤ 16) }
    ensures { result ≡ length (or_empty (alignments (table_of rows.now prepared.now) k group)) }
{
    let at = group - 1;
    let part = part_of(prepared, at);
    count_alignments(rows, prepared, part, hyperperiod_of(prepared, at))
}

// The group that a level fixes beside those of the one before it: of the others than k's own the next, rising.
fn group_at(k: Frame, level: usize) -> usize
    requires { (1 ≤ level) × (level < 16) }
    ensures value { result ≡ group_at k level }
    ensures listed { (1 ≤ result) × (result ≤ 16) }
{
    if level < k.group as usize {
        level
    } else {
        level + 1
    }
}

// The deepest level whose product of fixed alignments is within the limit. The first fixes the target's own group, each other one group more.
pub fn deepest_level(rows: &[u32], prepared: &[u32], k: Frame) -> usize
    requires prepared { Prepared rows.now prepared.now k }
    requires fine { Fine k }
    ensures { result ≡ deepest_level (table_of rows.now prepared.now) k }
{
    let own = k.group as usize;
    let mut product = cut_product(1, alignment_count(rows, prepared, k, own));
    for level in 0..LAST_LEVEL {
        let group = group_at(k, level + 1);
        product = cut_product(product, alignment_count(rows, prepared, k, group));
        if SCENARIO_LIMIT < product {
            return level;
        }
    }
    LAST_LEVEL
}
