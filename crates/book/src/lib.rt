// Listings of pairs, and the books that they are released as.
#![tactic(auto)]

mod book;
mod listing;

pub use book::Book;
pub use listing::Listing;
pub use table::{Damage, Fault, Layer, Pair};
