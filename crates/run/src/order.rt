// The order of 2 by the modulus: the least positive number n with 2^n leaving 1.
ghost use Rattle.std.specs.Prelude.{◌≡◌, ◌-◌, ◌%◌, ◌^◌, ◌==◌};
ghost use Rattle.theory.specs.Doubling.{order, row_length_of};

use arithmetic::{Arithmetic, raise};

// Whether 2^e leaves 1.
pub(crate) fn leaves_one<W: Arithmetic>(arithmetic: &W, exponent: u32) -> bool
    ensures value { result ≡ (2 ^ exponent % W.modulus arithmetic.now == 1) }
{
    let power = raise(arithmetic, arithmetic.bring_in(2), exponent);
    arithmetic.take_out(power) == 1
}

// The order, where 2^(p − 1) leaves 1: then it divides p − 1, so the divisors d up to the root of p − 1 are tried, each
// with its cofactor. The cofactors fall, so the last one that leaves 1 is the least of them.
fn order_of_two<W: Arithmetic>(arithmetic: &W) -> u32
    requires whole { 2 ^ (W.modulus arithmetic.now - 1) % W.modulus arithmetic.now ≡ 1 }
    ensures value { result ≡ order (W.modulus arithmetic.now) }
{
    let whole = arithmetic.modulus() - 1;
    let mut least = whole;
    for d in 1..=whole {
        // past the root, which the quotient shows: to find the root first took longer than all trials of a small modulus
        if whole / d < d {
            return least;
        }
        if whole % d == 0 {
            if leaves_one(arithmetic, d) {
                return d;
            }
            if leaves_one(arithmetic, whole / d) {
                least = whole / d;
            }
        }
    }
    least
}

// The length of a row: half the order where that is even, else the order.
pub(crate) fn row_length<W: Arithmetic>(arithmetic: &W) -> u32
    requires whole { 2 ^ (W.modulus arithmetic.now - 1) % W.modulus arithmetic.now ≡ 1 }
    ensures value { result ≡ row_length_of (W.modulus arithmetic.now) }
{
    let order = order_of_two(arithmetic);
    if order % 2 == 0 { order / 2 } else { order }
}
