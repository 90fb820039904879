// The work with a memory. A group left open is the costly one, since all its alignments are visited for its greatest work; that does
// not depend on the other groups' choices, so it is remembered, and not looked for again while it is.
ghost use Rattle.std.specs.Prelude.{◌≡◌, ◌+◌, ◌*◌, ◌≤◌, ◌<◌};
ghost use Rattle.bus_model.specs.Pattern.{of_group};
ghost use Rattle.bus_model.specs.Bounds.{ahead, alignments, work_at, group_work, work};
ghost use Rattle.bus_model.specs.Theory.Turns.{turn};
ghost use Rattle.greatest_work.specs.Memory.{greatest_work};
ghost use Rattle.greatest_work.specs.Setting.{frames, Remembers};

use crate::Setting;
use crate::stairs::{GUESSES, insert, lookup, set_of};
use alignment_walk::best_alignment;
use bus_model::Choice;
use workload::{count_of, cycle_of, first_of, part_of, work_in};

// The work of whole cycles of group j + 1, which is the same from every instant.
fn cycles_work(setting: &Setting, j: usize, cycles: u32) -> u64
    requires { (j < 16) × (cycles ≤ 1000001) }
    ensures { result ≡ cycles * work_at (of_group (ahead (frames setting.now) setting.now.target.frame) (j + 1)) 0 (turn (frames setting.now) setting.now.target.frame (j + 1)) }
{
    if cycles == 0 {
        return 0;
    }
    let part = part_of(setting.prepared, j);
    cycles as u64
        * work_in(
            setting.rows,
            setting.prepared,
            part,
            0,
            cycle_of(setting.prepared, j),
        )
}

// The greatest work of group j + 1 in fewer ticks than a cycle has, looked for only where no stair tells it.
fn stair_work(setting: &Setting, j: usize, n: u32, memory: &mut [u64]) -> u64
    requires remembered { Remembers setting.now memory.old }
    requires j_bound { (j < 16) × (n ≤ 1000001) }
    ensures value { result ≡ greatest_work (frames setting.now) setting.now.target.frame (j + 1) n }
    ensures remembered { Remembers setting.now memory.new }
{
    let cycle = cycle_of(setting.prepared, j);
    let set = set_of(
        first_of(setting.prepared, j),
        count_of(setting.prepared, j),
        n,
        cycle,
    );
    if let Some(work) = lookup(memory, set, j, n) {
        return work as u64;
    }
    let part = part_of(setting.prepared, j);
    let best = best_alignment(setting.rows, setting.prepared, part, cycle, n);
    insert(memory, set, j, n, best.work);
    memory[GUESSES + j] = best.alignment as u64 + 1;
    best.work
}

// The greatest work of group j + 1 in the first n ticks: that of whole cycles, and that of the rest.
fn open_work(setting: &Setting, j: usize, n: u32, memory: &mut [u64]) -> u64
    requires remembered { Remembers setting.now memory.old }
    requires j_bound { (j < 16) × (n ≤ 1000001) }
    ensures value { result ≡ greatest_work (frames setting.now) setting.now.target.frame (j + 1) n }
    ensures small { result ≤ 64 * 400400400 }
    ensures remembered { Remembers setting.now memory.new }
{
    let cycle = cycle_of(setting.prepared, j);
    let cycles = n / cycle;
    let rest = n % cycle;
    let whole = cycles_work(setting, j, cycles);
    if rest == 0 {
        return whole;
    }
    whole + stair_work(setting, j, rest, memory)
}

// The work of group j + 1 in the first n ticks, by its choice.
fn group_work(setting: &Setting, j: usize, choice: Choice, n: u32, memory: &mut [u64]) -> u64
    requires remembered { Remembers setting.now memory.old }
    requires j_bound { (j < 16) × (n ≤ 1000001) }
    ensures value { result ≡ group_work (of_group (ahead (frames setting.now) setting.now.target.frame) (j + 1)) (alignments (frames setting.now) setting.now.target.frame (j + 1)) choice n }
    ensures small { result ≤ 64 * 400400400 }
    ensures remembered { Remembers setting.now memory.new }
{
    match choice {
        Choice::Fixed(a) => work_in(
            setting.rows,
            setting.prepared,
            part_of(setting.prepared, j),
            a,
            n,
        ),
        Choice::Any => open_work(setting, j, n, memory),
    }
}

// The work of the frames ahead of the target.
pub fn whole_work(setting: &Setting, choices: [Choice; 16], n: u32, memory: &mut [u64]) -> u64
    requires remembered { Remembers setting.now memory.old }
    requires n_bound { n ≤ 1000001 }
    ensures value { result ≡ work (frames setting.now) setting.now.target.frame (ahead (frames setting.now) setting.now.target.frame) choices n }
    ensures small { result ≤ 1024 * 400400400 }
    ensures remembered { Remembers setting.now memory.new }
{
    let mut sum: u64 = 0;
    for (j, choice) in choices.iter().enumerate() {
        sum += group_work(setting, j, *choice, n, memory);
    }
    sum
}
