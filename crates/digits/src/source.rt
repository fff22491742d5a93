// The digit sources: a division, and the count of the groups handed out.
ghost use Rattle.std.specs.Prelude.{◌^◌, ◌<◌};
ghost use Rattle.arithmetic.specs.Made.{Made};
ghost use Rattle.digits.specs.Counts.{Handed};
ghost use Rattle.std.proofs.Common.{rules, arith};

use crate::dividing::Dividing;
use crate::doubling::Doubling;
use crate::reciprocal::Multiplying;
use crate::traits::{DigitSource, Division};
use arithmetic::{Modulus, Refusal};

#[derive(Debug, Drop)]
pub struct Source<D> {
    pub(crate) division: D,
    taken: u64,
    ghost bounded: { taken < 2 ^ 63 },
}

// The source that divides.
pub type Divider = Source<Dividing>;

// The source that doubles and subtracts, once for each digit.
pub type Doubler = Source<Doubling>;

// The source that multiplies by the reciprocal.
pub type Reciprocal = Source<Multiplying>;

// Where the count stays.
const MOST: u64 = 9223372036854775807;

impl<D: Division> Source<D> {
    pub fn new(modulus: u32) -> Result<Source<D>, Refusal>
        ensures made { Made modulus (λ s. D.divisor s.division) result }
        ensures count { Handed 0 (λ s. s.taken) result }
    {
        Source::resume(modulus, 0)
    }

    // A source that has handed out `taken` groups already.
    pub fn resume(modulus: u32, taken: u64) -> Result<Source<D>, Refusal>
        ensures made { Made modulus (λ s. D.divisor s.division) result }
        ensures count { Handed taken (λ s. s.taken) result }
    {
        let modulus = Modulus::try_from(modulus)?;
        Ok(Source {
            division: D::by(modulus),
            taken: taken.min(MOST),
        })
    }
}

impl<D: Division> DigitSource for Source<D> {
    ghost modulus = { λ s. D.divisor s.division };

    ghost taken = { λ s. s.taken };

    ghost fit = { λ s. D.fit s.division };

    ghost bounded = { first_of (Prim.search rules, Prim.grind (arith, Self.row.coded.inj)) };

    #[inline]
    fn modulus(&self) -> u32 {
        self.division.divisor()
    }

    #[inline]
    fn count(&self) -> u64 {
        self.taken
    }

    #[inline]
    fn group(&mut self, x: u32) -> (u64, u32) {
        self.taken = (self.taken + 1).min(MOST);
        self.division.divide(x)
    }
}
