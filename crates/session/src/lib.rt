// A session: a list of calls, made on one new listing, and their answers.
#![tactic(auto)]

mod answer;
mod book_calls;
mod booking;
mod call;
mod examples;
mod finishing;
mod listing_calls;
mod sharing;
mod slot;
mod state;
mod whole;

pub use answer::{Answer, Outcome};
pub use call::{BookCall, ListingCall};
pub use examples::worked_history_holds;
pub use whole::work;
