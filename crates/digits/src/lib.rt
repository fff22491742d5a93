// Digit sources: from a point x below p, the next eight binary digits of x/p and the point that follows them.
#![tactic(auto)]

mod dividing;
mod doubling;
mod reciprocal;
mod sides;
mod source;
mod traits;

pub use dividing::Dividing;
pub use doubling::Doubling;
pub use reciprocal::Multiplying;
pub use source::{Divider, Doubler, Reciprocal, Source};
pub use traits::{DigitSource, Division};
