// The division that multiplies by the reciprocal: a guess from the whole quotient of 2^62 by p, put right where it is one too small.
ghost use Rattle.std.specs.Prelude.{◌≡◌, ◌*◌, ◌/◌, ◌%◌, ◌^◌, ◌<◌};
ghost use Rattle.digits.specs.Guesses.{Near};
ghost use Rattle.std.proofs.Common.{rules, arith};

use crate::source::Source;
use crate::traits::Division;
use arithmetic::Modulus;

#[derive(Clone, Copy, Debug)]
pub struct Multiplying {
    modulus: Modulus,
    reciprocal: u64,
    ghost whole: { reciprocal ≡ 2 ^ 62 / modulus.number },
}

impl Multiplying {
    // x times the whole quotient of 2^62 by p, without its low 54 bits.
    #[inline]
    fn guess(&self, x: u32) -> u64
        ensures value { result ≡ x * (2 ^ 62 / self.now.modulus.number) % 2 ^ 64 / 2 ^ 54 }
    {
        (x as u64).wrapping_mul(self.reciprocal) >> 54
    }
}

impl Source<Multiplying> {
    // The guess at the whole quotient of 256·x by p.
    pub fn guess(&self, x: u32) -> u64
        ensures value { result ≡ x * (2 ^ 62 / self.now.division.modulus.number) % 2 ^ 64 / 2 ^ 54 }
        ensures near { x < self.now.division.modulus.number → Near (256 * x / self.now.division.modulus.number) result }
    {
        self.division.guess(x)
    }
}

impl Division for Multiplying {
    ghost divisor = { λ d. d.modulus.number };

    ghost fit = { λ d. d.modulus.fit };

    fn by(modulus: Modulus) -> Multiplying {
        let reciprocal = 4611686018427387904 / modulus.number as u64;
        Multiplying {
            modulus,
            reciprocal,
        }
    }

    #[inline]
    fn divisor(&self) -> u32 {
        self.modulus.number
    }

    #[inline]
    fn divide(&self, x: u32) -> (u64, u32) {
        let modulus = self.modulus.number as u64;
        let guess = self.guess(x);
        let wide = x as u64 * 256;
        let rest = wide.wrapping_sub(guess * modulus);
        if rest < modulus {
            (guess, rest as u32)
        } else if rest - modulus < modulus {
            (guess + 1, (rest - modulus) as u32)
        } else {
            (wide / modulus, (wide % modulus) as u32)
        }
    }
}
