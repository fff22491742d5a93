// Runs: the terms of a sum, taken in shares with any arithmetic, and the residue that a whole run gives.
#![tactic(auto)]

mod carry;
mod cells;
mod count;
mod counted;
mod direct;
mod doubling;
mod finish;
mod finished;
mod gather;
mod groups;
mod moved;
mod multiplier;
mod open;
mod order;
mod progress;
mod result;
mod rows;
mod share;
mod state;
mod stretch;
mod tell;
mod told;
mod walk;

pub use carry::LARGEST_SHARE;
pub use finished::FinishedResidue;
pub use state::Run;
