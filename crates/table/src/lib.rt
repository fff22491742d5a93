// The record table: the pairs of a listing or a book in order of entering, and their chain in rising order of modulus.
#![tactic(auto)]

mod fault;
mod pair;
mod table;

pub use fault::{Damage, Fault, Layer};
pub use pair::{Pair, Record};
pub use table::RecordTable;
