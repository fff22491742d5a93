// Powers and inverses, for every arithmetic.
ghost use Rattle.std.specs.Prelude.{◌≡◌, ◌*◌, ◌%◌, ◌^◌};
ghost use Rattle.theory.specs.Residues.{inverse};

use crate::traits::Arithmetic;

// The power of an element, by squaring.
pub fn raise<W: Arithmetic>(arithmetic: &W, base: W::Element, exponent: u32) -> W::Element
    ensures value { W.residue arithmetic.now result ≡ W.residue arithmetic.now base ^ exponent % W.modulus arithmetic.now }
{
    raise_on(arithmetic, arithmetic.bring_in(1), base, exponent)
}

// What is gathered, times the power of the square to the exponent that is left. The product and the square of a step do
// not wait for each other, and the call is the last thing done, so that it becomes a loop.
fn raise_on<W: Arithmetic>(
    arithmetic: &W,
    gathered: W::Element,
    square: W::Element,
    left: u32,
) -> W::Element
    ensures value { W.residue arithmetic.now result ≡ W.residue arithmetic.now gathered * W.residue arithmetic.now square ^ left % W.modulus arithmetic.now }
{
    if left == 0 {
        return gathered;
    }
    let next = arithmetic.mul(square, square);
    if left % 2 == 1 {
        let gathered = arithmetic.mul(gathered, square);
        return raise_on(arithmetic, gathered, next, left / 2);
    }
    raise_on(arithmetic, gathered, next, left / 2)
}

// 1/a: the power a^(p − 2), which is 0 for 0.
pub fn invert<W: Arithmetic>(arithmetic: &W, a: W::Element) -> W::Element
    ensures value { W.residue arithmetic.now result ≡ inverse (W.modulus arithmetic.now) (W.residue arithmetic.now a) }
{
    raise(arithmetic, a, arithmetic.modulus() - 2)
}
