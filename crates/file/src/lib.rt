// A record table as a file: writing it into a lent output, and reading it from any bytes.
#![tactic(auto)]

mod reading;
mod row;
mod writing;

pub use reading::read;
pub use writing::write;
