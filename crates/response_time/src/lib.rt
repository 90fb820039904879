// The response times of a frame in a scenario: the searches for its busy window and for the starts of its instances, and which of these
// need not be made.
#![tactic(auto)]

mod exceeding;
mod instances;
mod reach;
mod response;
mod search;
mod within;

pub use exceeding::exceeding_instance;
pub use reach::{PATIENCE, reach_before, sweep};
pub use response::max_with_scenario;
pub use search::{busy_window, is_open, own_choice};
