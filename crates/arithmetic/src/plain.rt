// The plain arithmetic: an element is a remainder by p.
ghost use Rattle.std.specs.Prelude.{◌≡◌, ℕ, ◌+◌, ◌*◌, ◌%◌, ◌<◌};
ghost use Rattle.arithmetic.specs.Made.{Made};
ghost use Rattle.theory.specs.Residues.{minus};
ghost use Rattle.std.proofs.Common.{rules, arith};

use crate::modulus::Modulus;
use crate::refusal::Refusal;
use crate::traits::Arithmetic;

#[derive(Clone, Copy, Debug)]
pub struct Plain {
    modulus: Modulus,
}

// A word that stands for its remainder by p. The operations only make words below p.
// An element does not hold its modulus, so what bounds its word is told by each operation, and not by its type.
#[derive(Clone, Copy, Debug)]
pub struct PlainElement(u32);

// Each arithmetic makes itself: what a trait of the three could share is one line.
impl Plain {
    pub fn new(modulus: u32) -> Result<Plain, Refusal>
        ensures made { Made modulus (λ a. a.modulus.number) result }
    {
        let modulus = Modulus::try_from(modulus)?;
        Ok(Plain { modulus })
    }
}

impl Arithmetic for Plain {
    type Element = PlainElement;

    ghost modulus = { λ a. a.modulus.number };

    ghost residue = { λ a e. e.0 % a.modulus.number };

    ghost fit = { λ a. a.modulus.fit };

    ghost under = { first_of (Prim.search rules, Prim.grind (arith, Self.row.coded.inj)) };

    fn modulus(&self) -> u32 {
        self.modulus.number
    }

    fn bring_in(&self, n: u32) -> PlainElement
        ensures value { result.0 % self.now.modulus.number ≡ n % self.now.modulus.number }
        ensures word { result.0 ≡ n % self.now.modulus.number }
    {
        PlainElement(n % self.modulus.number)
    }

    fn take_out(&self, e: PlainElement) -> u32 {
        e.0 % self.modulus.number
    }

    fn add(&self, a: PlainElement, b: PlainElement) -> PlainElement
        ensures value { result.0 % self.now.modulus.number ≡ (a.0 % self.now.modulus.number + b.0 % self.now.modulus.number) % self.now.modulus.number }
        ensures word { result.0 < self.now.modulus.number }
    {
        PlainElement(((a.0 as u64 + b.0 as u64) % self.modulus.number as u64) as u32)
    }

    fn sub(&self, a: PlainElement, b: PlainElement) -> PlainElement
        ensures value { result.0 % self.now.modulus.number ≡ minus self.now.modulus.number (a.0 % self.now.modulus.number) (b.0 % self.now.modulus.number) }
        ensures word { result.0 < self.now.modulus.number }
    {
        let opposite = self.modulus.number - b.0 % self.modulus.number;
        PlainElement(((a.0 as u64 + opposite as u64) % self.modulus.number as u64) as u32)
    }

    fn mul(&self, a: PlainElement, b: PlainElement) -> PlainElement
        ensures value { result.0 % self.now.modulus.number ≡ a.0 % self.now.modulus.number * (b.0 % self.now.modulus.number) % self.now.modulus.number }
        ensures word { result.0 < self.now.modulus.number }
    {
        PlainElement((a.0 as u64 * b.0 as u64 % self.modulus.number as u64) as u32)
    }
}
