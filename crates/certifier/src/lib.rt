// The operations on frame tables: the precise bound of a row, its judgement, the listing of all rows, and
// the entries for C, which certifier_c exports, those of the load sheet, of a frame's length, of a log and of a simulation among them. Each
// takes any input, and checks its lengths and its table itself. The encode functions give the numbers that the entries answer.
#![tactic(auto)]

mod busiest_entry;
mod encode;
mod explain_entry;
mod faults_entry;
mod faults_listing;
mod frame_entry;
mod listing;
mod log_entry;
mod simulate_entry;
mod worst_entry;

pub use busiest_entry::certifier_busiest;
pub use encode::{
    certifier_judge, certifier_list, certifier_load_sheet, certifier_precise_bound, encode_answer,
    encode_bounded, encode_judgement_of, encode_refusal,
};
pub use explain_entry::certifier_explain;
pub use faults_entry::{certifier_explain_faults, certifier_judge_faults, certifier_list_faults};
pub use faults_listing::list_faults;
pub use frame_entry::certifier_frame_length;
pub use listing::{
    LINE, REFUSAL_LINE, list, list_input, write_line, write_refusal, write_refusal_line, write_row,
};
pub use log_entry::certifier_check_log;
pub use row_judgement::{Cause, Refusal, judge, judge_faults, number, precise_bound, verdict};
pub use simulate_entry::certifier_simulate;
pub use worst_entry::certifier_worst;
