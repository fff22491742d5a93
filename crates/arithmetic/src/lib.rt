// Arithmetics modulo p and what they have in common, and the refusals of every call.
#![tactic(auto)]

mod balanced;
mod fitness;
mod modulus;
mod montgomery;
mod plain;
mod power;
mod refusal;
mod sides;
mod traits;

pub use balanced::{Balanced, BalancedElement};
pub use either::Either;
pub use fitness::{try_index, try_pair};
pub use modulus::{Modulus, try_modulus};
pub use montgomery::{Montgomery, MontgomeryElement};
pub use plain::{Plain, PlainElement};
pub use power::{invert, raise};
pub use refusal::Refusal;
pub use traits::Arithmetic;
