// Putting bytes out into a lent output, and the two kinds of text line.
#![tactic(auto)]

mod put;
mod text;

pub use put::put_out;
pub use text::{Line, put_line};
