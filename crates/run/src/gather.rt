// What the cells of a counted share come to.
ghost use Rattle.std.specs.Prelude.{◌≡◌, ℕ, ◌%◌, ◌^◌, ◌<◌, slice_index};
ghost use Rattle.run.specs.Counting.{sign_sum, weighed};

use arithmetic::Arithmetic;

// The powers of the ratio from 0 to 7, taken out.
fn powers_of<W: Arithmetic>(arithmetic: &W, ratio: W::Element) -> [u32; 8]
    ensures value { (u : ℕ) → u < 8 → slice_index result u ≡ W.residue arithmetic.now ratio ^ u % W.modulus arithmetic.now }
{
    let mut powers = [0; 8];
    let mut power = arithmetic.bring_in(1);
    for place in powers.iter_mut() {
        *place = arithmetic.take_out(power);
        power = arithmetic.mul(power, ratio);
    }
    powers
}

// The sign sum of a cell's number: the first digit is its highest, and a digit 1 makes the power negative.
fn sum_signs<W: Arithmetic>(arithmetic: &W, powers: &[u32; 8], number: usize) -> W::Element
    ensures value { (r : ℕ) → ((u : ℕ) → u < 8 → slice_index powers.now u ≡ r ^ u % W.modulus arithmetic.now) → W.residue arithmetic.now result ≡ sign_sum (W.modulus arithmetic.now) r 8 number % W.modulus arithmetic.now }
{
    let mut sum = arithmetic.bring_in(0);
    for (u, power) in powers.iter().enumerate() {
        let term = arithmetic.bring_in(*power);
        if (number >> (7 - u)) & 1 == 1 {
            sum = arithmetic.sub(sum, term);
        } else {
            sum = arithmetic.add(sum, term);
        }
    }
    sum
}

// Every cell times the sign sum of its number.
pub(crate) fn gather<W: Arithmetic>(
    arithmetic: &W,
    ratio: W::Element,
    cells: &[u64; 256],
) -> W::Element
    ensures value { W.residue arithmetic.now result ≡ weighed (W.modulus arithmetic.now) (W.residue arithmetic.now ratio) 8 cells.now % W.modulus arithmetic.now }
{
    let p = arithmetic.modulus() as u64;
    let powers = powers_of(arithmetic, ratio);
    let mut sum = arithmetic.bring_in(0);
    for (number, cell) in cells.iter().enumerate() {
        let weight = arithmetic.bring_in((*cell % p) as u32);
        let signs = sum_signs(arithmetic, &powers, number);
        sum = arithmetic.add(sum, arithmetic.mul(weight, signs));
    }
    sum
}
