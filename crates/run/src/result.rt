// The result of a whole run, from its sum.
ghost use Rattle.std.specs.Prelude.{◌≡◌, ◌*◌, ◌%◌, ◌^◌};
ghost use Rattle.theory.specs.Residues.{minus, inverse};

use arithmetic::{Arithmetic, invert, raise};

// A factor times the sum, over the divisor.
fn quotient<W: Arithmetic>(arithmetic: &W, factor: W::Element, sum: u32, divisor: W::Element) -> u32
    ensures value { result ≡ W.residue arithmetic.now factor * sum * inverse (W.modulus arithmetic.now) (W.residue arithmetic.now divisor) % W.modulus arithmetic.now }
{
    let product = arithmetic.mul(factor, arithmetic.bring_in(sum));
    arithmetic.take_out(arithmetic.mul(product, invert(arithmetic, divisor)))
}

// 2k·S/(1 − g^k)
pub(crate) fn direct_result<W: Arithmetic>(
    arithmetic: &W,
    index: u32,
    generator: u32,
    sum: u32,
) -> u32
    ensures value { result ≡ 2 * index * sum * inverse (W.modulus arithmetic.now) (minus (W.modulus arithmetic.now) 1 (generator ^ index)) % W.modulus arithmetic.now }
{
    let power = raise(arithmetic, arithmetic.bring_in(generator), index);
    let divisor = arithmetic.sub(arithmetic.bring_in(1), power);
    let twice = arithmetic.mul(arithmetic.bring_in(2), arithmetic.bring_in(index));
    quotient(arithmetic, twice, sum, divisor)
}

// k·S/(2(2^(−k) − 1))
pub(crate) fn doubling_result<W: Arithmetic>(arithmetic: &W, index: u32, sum: u32) -> u32
    ensures value { result ≡ index * sum * inverse (W.modulus arithmetic.now) (2 * minus (W.modulus arithmetic.now) (inverse (W.modulus arithmetic.now) (2 ^ index)) 1) % W.modulus arithmetic.now }
{
    let two = arithmetic.bring_in(2);
    let power = raise(arithmetic, two, index);
    let below = arithmetic.sub(invert(arithmetic, power), arithmetic.bring_in(1));
    let divisor = arithmetic.mul(two, below);
    quotient(arithmetic, arithmetic.bring_in(index), sum, divisor)
}
