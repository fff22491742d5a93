// The balanced arithmetic: an element is a signed number from −(p − 1)/2 to (p − 1)/2.
ghost use Rattle.std.specs.Prelude.{◌≡◌, ◌+◌, ◌*◌, ◌%◌};
ghost use Rattle.arithmetic.specs.Made.{Made};
ghost use Rattle.arithmetic.specs.Words.{remainder, WithinHalf};
ghost use Rattle.theory.specs.Residues.{minus};
ghost use Rattle.std.proofs.Common.{rules, arith};

use crate::modulus::Modulus;
use crate::refusal::Refusal;
use crate::traits::Arithmetic;

#[derive(Clone, Copy, Debug)]
pub struct Balanced {
    modulus: Modulus,
}

// A signed word that stands for its remainder by p. The operations only make words from −(p − 1)/2 to (p − 1)/2.
// An element does not hold its modulus, so what bounds its word is told by each operation, and not by its type.
#[derive(Clone, Copy, Debug)]
pub struct BalancedElement(i32);

impl Balanced {
    pub fn new(modulus: u32) -> Result<Balanced, Refusal>
        ensures made { Made modulus (λ a. a.modulus.number) result }
    {
        let modulus = Modulus::try_from(modulus)?;
        Ok(Balanced { modulus })
    }

    // The balanced word of a number.
    fn settle(&self, n: i64) -> BalancedElement
        ensures value { remainder self.now.modulus.number result.0 ≡ remainder self.now.modulus.number n }
        ensures word { WithinHalf self.now.modulus.number result.0 }
    {
        let modulus = self.modulus.number as i64;
        let rest = n.rem_euclid(modulus);
        if rest > modulus / 2 {
            BalancedElement((rest - modulus) as i32)
        } else {
            BalancedElement(rest as i32)
        }
    }
}

impl Arithmetic for Balanced {
    type Element = BalancedElement;

    ghost modulus = { λ a. a.modulus.number };

    ghost residue = { λ a e. remainder a.modulus.number e.0 };

    ghost fit = { λ a. a.modulus.fit };

    ghost under = { first_of (Prim.search rules, Prim.grind (arith, Self.row.coded.inj)) };

    fn modulus(&self) -> u32 {
        self.modulus.number
    }

    fn bring_in(&self, n: u32) -> BalancedElement
        ensures value { remainder self.now.modulus.number result.0 ≡ n % self.now.modulus.number }
        ensures word { WithinHalf self.now.modulus.number result.0 }
    {
        self.settle(n as i64)
    }

    fn take_out(&self, e: BalancedElement) -> u32 {
        (e.0 as i64).rem_euclid(self.modulus.number as i64) as u32
    }

    fn add(&self, a: BalancedElement, b: BalancedElement) -> BalancedElement
        ensures value { remainder self.now.modulus.number result.0 ≡ (remainder self.now.modulus.number a.0 + remainder self.now.modulus.number b.0) % self.now.modulus.number }
        ensures word { WithinHalf self.now.modulus.number result.0 }
    {
        self.settle(a.0 as i64 + b.0 as i64)
    }

    fn sub(&self, a: BalancedElement, b: BalancedElement) -> BalancedElement
        ensures value { remainder self.now.modulus.number result.0 ≡ minus self.now.modulus.number (remainder self.now.modulus.number a.0) (remainder self.now.modulus.number b.0) }
        ensures word { WithinHalf self.now.modulus.number result.0 }
    {
        self.settle(a.0 as i64 - b.0 as i64)
    }

    fn mul(&self, a: BalancedElement, b: BalancedElement) -> BalancedElement
        ensures value { remainder self.now.modulus.number result.0 ≡ remainder self.now.modulus.number a.0 * remainder self.now.modulus.number b.0 % self.now.modulus.number }
        ensures word { WithinHalf self.now.modulus.number result.0 }
    {
        self.settle(a.0 as i64 * b.0 as i64)
    }
}
