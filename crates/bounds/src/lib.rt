// The bounds of a frame's response time over all scenarios, computed over an accepted table.
#![tactic(auto)]

mod alignments;
mod case;
mod count;
mod deciding;
mod refine;
mod windows;

pub use case::first_case;
pub use deciding::find;

// The bound that decides about a claim.
#[derive(Clone, Copy)]
pub enum Bound {
    // For some alignment of the frame's own group the approximate bound has no busy window.
    NoWindow,
    // The approximate bound, which the claim meets.
    Approximate(u32),
    // The bound of the deepest level that is looked at, where the scenarios are too many for the precise one and the claim meets it.
    Level(u32),
    // The approximate bound, where it does not.
    TooMany(u32),
    Precise(u32),
}
