// Terms of a doubling run on end in one row, taken one by one.
ghost use Rattle.std.specs.Prelude.{◌≡◌, ◌+◌, ◌*◌, ◌%◌, ◌^◌, ◌<◌};
ghost use Rattle.run.specs.Stretches.{stretch};

use arithmetic::Arithmetic;

// A sum with the point and the weight of the next term, while a share is worked.
#[derive(Clone, Copy)]
pub struct Stretch<E> {
    pub sum: E,
    pub point: u32,
    pub weight: E,
}

// Takes so many terms of a row. Both sums are worked before the point tells which of them counts, so that no branch
// hangs on it.
pub(crate) fn take_stretch<W: Arithmetic>(
    arithmetic: &W,
    ratio: W::Element,
    from: Stretch<W::Element>,
    terms: u32,
) -> Stretch<W::Element>
    requires below { from.point < W.modulus arithmetic.now }
    ensures sum { W.residue arithmetic.now result.sum ≡ (W.residue arithmetic.now from.sum + stretch (W.modulus arithmetic.now) (W.residue arithmetic.now ratio) from.point (W.residue arithmetic.now from.weight) terms) % W.modulus arithmetic.now }
    ensures point { result.point ≡ 2 ^ terms * from.point % W.modulus arithmetic.now }
    ensures weight { W.residue arithmetic.now result.weight ≡ W.residue arithmetic.now from.weight * W.residue arithmetic.now ratio ^ terms % W.modulus arithmetic.now }
{
    // locals, and no struct of them: the loop is hot
    let p = arithmetic.modulus();
    let mut sum = from.sum;
    let mut point = from.point;
    let mut weight = from.weight;
    for _i in 0..terms {
        let plus = arithmetic.add(sum, weight);
        let minus = arithmetic.sub(sum, weight);
        let double = 2 * point;
        if double < p {
            sum = plus;
            point = double;
        } else {
            sum = minus;
            point = double - p;
        }
        weight = arithmetic.mul(weight, ratio);
    }
    Stretch { sum, point, weight }
}
