// Products of one fixed factor by changing numbers, divided by p with no division.
ghost use Rattle.std.specs.Prelude.{◌≡◌, ◌*◌, ◌/◌, ◌%◌, ◌^◌, ◌<◌, ◌≤◌};

// A factor below p, with the whole quotient of the factor times 2^32 by p.
#[derive(Clone, Copy)]
pub struct Multiplier {
    factor: u32,
    modulus: u32,
    scaled: u32,
    ghost below: { factor < modulus },
    ghost high: { modulus ≤ 2147483647 },
    ghost whole: { scaled ≡ factor * 2 ^ 32 / modulus },
}

impl Multiplier {
    pub(crate) fn new(factor: u32, modulus: u32) -> Multiplier
        requires below { factor < modulus }
        requires high { modulus ≤ 2147483647 }
        ensures factor { result.factor ≡ factor }
        ensures modulus { result.modulus ≡ modulus }
    {
        let scaled = (((factor as u64) << 32) / modulus as u64) as u32;
        Multiplier {
            factor,
            modulus,
            scaled,
        }
    }

    // The whole quotient of factor · x by p, and the remainder. The quotient is guessed through the scaled one,
    // and the guess is at most one too small.
    pub(crate) fn times(&self, x: u32) -> (u32, u32)
        requires below { x < self.now.modulus }
        ensures quotient { result.0 ≡ self.now.factor * x / self.now.modulus }
        ensures remainder { result.1 ≡ self.now.factor * x % self.now.modulus }
    {
        let p = self.modulus as u64;
        let guess = (self.scaled as u64 * x as u64) >> 32;
        let rest = self.factor as u64 * x as u64 - guess * p;
        if rest < p {
            (guess as u32, rest as u32)
        } else {
            ((guess + 1) as u32, (rest - p) as u32)
        }
    }
}
