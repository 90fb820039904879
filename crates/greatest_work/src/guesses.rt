// A scenario in place of one that leaves groups open: each of those stands at the alignment that gave its greatest work last.
// Whatever it is, the scenario has no more work, so that a search in it, which costs little, leads up to the one wanted.
ghost use Rattle.std.specs.Prelude.{◌≡◌, ℕ, ◌+◌, ◌<◌};
ghost use mathlib.Core.List.{Memᴰ as Mem};
ghost use Rattle.bus_model.specs.declared.Choice.TheVariants.{Fixed};
ghost use Rattle.bus_model.specs.Bounds.{alignments, or_empty};
ghost use Rattle.bus_model.specs.Theory.Work.{Allows, RefinedBy};
ghost use Rattle.workload.specs.Placed.{AllFixed};
ghost use Rattle.greatest_work.specs.Setting.{frames, Remembers};

use crate::Setting;
use crate::stairs::GUESSES;
use alignment_walk::next_alignment;
use bus_model::Choice;
use workload::{cycle_of, part_of};

// The alignment remembered for group j + 1, or its first where none is yet.
fn guess(setting: &Setting, j: usize, memory: &[u64]) -> u32
    requires remembered { Remembers setting.now memory.now }
    requires j_bound { j < 16 }
    ensures { Mem result (or_empty (alignments (frames setting.now) setting.now.target.frame (j + 1))) }
{
    let last = memory[GUESSES + j];
    if 0 < last {
        return (last - 1) as u32;
    }
    let part = part_of(setting.prepared, j);
    next_alignment(
        setting.rows,
        setting.prepared,
        part,
        0,
        cycle_of(setting.prepared, j),
    )
    .unwrap_or(0)
}

// A fixed choice as it is, and that alignment in place of `Any`.
fn guessed_choice(setting: &Setting, j: usize, choice: Choice, memory: &[u64]) -> Choice
    requires remembered { Remembers setting.now memory.now }
    requires j_bound { j < 16 }
    ensures allows { Allows (alignments (frames setting.now) setting.now.target.frame (j + 1)) choice result }
    ensures fixed { (a : ℕ) × (result ≡ Fixed a) }
{
    match choice {
        Choice::Fixed(a) => Choice::Fixed(a),
        Choice::Any => Choice::Fixed(guess(setting, j, memory)),
    }
}

// The scenario with those alignments in place of `Any`.
pub fn guessed(setting: &Setting, choices: [Choice; 16], memory: &[u64]) -> [Choice; 16]
    requires { Remembers setting.now memory.now }
    ensures refined_by { RefinedBy (frames setting.now) setting.now.target.frame choices result }
    ensures fixed { AllFixed result }
{
    let mut fixed = choices;
    for (j, choice) in choices.iter().enumerate() {
        fixed[j] = guessed_choice(setting, j, *choice, memory);
    }
    fixed
}
