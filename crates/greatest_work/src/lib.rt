// The greatest work that a group's alignments give, remembered in stairs, and guesses of the alignment that gives it.
#![tactic(auto)]

mod greatest;
mod guesses;
mod stairs;

ghost use Rattle.greatest_work.specs.Ready.{Posed};
ghost use Rattle.workload.specs.Faults.{props};

pub use greatest::whole_work;
pub use guesses::guessed;
pub use stairs::MEMORY;
use workload::Target;

// What the searches for one judged frame work with: the rows of its table, what is prepared of them, and the frame.
#[derive(Clone, Copy)]
pub struct Setting<'a> {
    pub rows: &'a [u32],
    pub prepared: &'a [u32],
    pub target: Target,
    ghost posed: { Posed rows.now prepared.now target } by { Prim.hlevel props },
}
