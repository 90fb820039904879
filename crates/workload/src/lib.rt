// The work that the frames ahead of one bring at fixed alignments. What is needed of an accepted table beside its rows is prepared once
// for each judged row; a search places the frames that load a scenario before it begins.
#![tactic(auto)]

mod blocking;
mod faults;
mod groups;
mod placed;
mod prepared;
mod work;

pub use blocking::frame_blocking;
use bus_model::{Faults, Frame};
pub use faults::{fault_cost, fault_time, lead_of};
pub use placed::{PLACES, PlacedFrame, place, placed_work};
pub use prepared::{
    AREA, GROUP_ROWS, GROUPS, Row, count_of, cycle_of, first_of, hyperperiod_of, part_of, prepare,
};
pub use work::{
    distance_from, frame_demand, listed_row, phase_of, quotient, releases_before, work_in,
};

// The frame that is judged, with its blocking, the premise about faults, and what one costs it at most.
#[derive(Clone, Copy)]
pub struct Target {
    pub frame: Frame,
    pub blocked: u32,
    pub faults: Faults,
    pub cost: u32,
}

// What is looked for in a scenario: its busy window, or the start of an instance.
// No Option: either has a name of its own in contracts, and functions of a line each say what differs (`base_of`, `lead_of`, `shift_of`, `is_load`).
#[derive(Clone, Copy)]
pub enum Search {
    Window,
    Instance(u32),
}
