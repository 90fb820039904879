// The types that the definitions in specs/ share with the code of the crates above.
#![tactic(auto)]

// A frame of the table, by the numbers that the bus rule and the bounds read.
#[derive(Clone, Copy)]
pub struct Frame {
    // Nodes that start together are a group; which of its nodes sends the frame plays no part.
    pub group: u32,
    // Document 01's "rank": the smaller number goes first.
    pub priority: u64,
    // "Largest length", C: in ticks, with the space between frames.
    pub length: u32,
    // p.
    pub period: u32,
    // o.
    pub offset: u32,
}

// A group's part in a scenario: whichever of its alignments gives the greatest sum, chosen anew at each tick,
// or one of them.
// No Option: `None` would have to be read as any alignment wherever it stands.
#[derive(Clone, Copy)]
pub enum Choice {
    Any,
    Fixed(u32),
}

// A premise about faults on the bus (document 02, request 9): none ever begins, or they begin at least so many
// ticks apart.
// No Option: the theorems name the premise (`certified-meets` is the case Never).
#[derive(Clone, Copy)]
pub enum Faults {
    Never,
    Apart(u32),
}

// The named outcomes of judging a claim, each but the last with the bound used.
#[derive(Clone, Copy)]
pub enum Outcome {
    // "Certified by the rough bound".
    CertifiedApproximate(u32),
    // "Certified by the exact bound".
    CertifiedPrecise(u32),
    // "Claim too small".
    ClaimTooSmall(u32),
    // Certified by the bound of a level between the two.
    CertifiedLevel(u32),
    Undecided(u32),
    NoWindow,
}

// The outcome beside the bound used and the margin.
#[derive(Clone, Copy)]
pub struct Judgement {
    pub outcome: Outcome,
    pub bound: u32,
    pub margin: i64,
}

// The case that breaks a claim: the alignment of each group from 1 on, an empty one as 0, and the first instance whose response exceeds the
// claim, counted from 1.
#[derive(Clone, Copy)]
pub struct Case {
    pub instance: u32,
    pub alignments: [u32; 16],
}
