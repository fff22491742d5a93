// The work on one record: a run of its pair carried to its end, and the line that it gives.
#![tactic(auto)]

mod records;
mod whole;

pub use records::{fault_line, work_record};
pub use whole::work_run;
