// Whole numbers in decimal, too long for a word, taken modulo p.
ghost use Rattle.std.specs.Prelude.{◌≡◌, ◌*◌, ◌%◌};
ghost use Rattle.theory.specs.Residues.{inverse};
ghost use Rattle.published.specs.Numerals.{spelled, signed_residue};

use arithmetic::{Arithmetic, invert};

// The residue of the number that the digits spell.
fn digits_residue<W: Arithmetic>(arithmetic: &W, digits: &[u8]) -> u32
    ensures value { result ≡ spelled 0 digits.now % W.modulus arithmetic.now }
{
    let p = arithmetic.modulus() as u64;
    let mut rest = 0;
    for digit in digits {
        rest = (10 * rest + digit.saturating_sub(b'0') as u64) % p;
    }
    rest as u32
}

// The residue of the number with its sign, which are two of the four fields of a published value and stand for a number
// without the others.
fn signed_residue<W: Arithmetic>(arithmetic: &W, negative: bool, digits: &[u8]) -> W::Element
    ensures value { W.residue arithmetic.now result ≡ signed_residue (W.modulus arithmetic.now) negative digits.now }
{
    let size = arithmetic.bring_in(digits_residue(arithmetic, digits));
    if negative {
        arithmetic.sub(arithmetic.bring_in(0), size)
    } else {
        size
    }
}

// The residue of the fraction: its numerator times D^(p − 2), with D its denominator.
pub(crate) fn fraction_residue<W: Arithmetic>(
    arithmetic: &W,
    negative: bool,
    digits: &[u8],
    denominator: u32,
) -> u32
    ensures value { result ≡ signed_residue (W.modulus arithmetic.now) negative digits.now * inverse (W.modulus arithmetic.now) denominator % W.modulus arithmetic.now }
{
    let above = signed_residue(arithmetic, negative, digits);
    let below = arithmetic.bring_in(denominator);
    arithmetic.take_out(arithmetic.mul(above, invert(arithmetic, below)))
}
