// Montgomery's arithmetic: the number n is kept as n·2^32 mod p, and a product is reduced with no division.
ghost use Rattle.std.specs.Prelude.{◌≡◌, ℕ, ◌+◌, ◌*◌, ◌%◌, ◌^◌, ◌<◌, ◌≤◌};
ghost use Rattle.arithmetic.specs.Made.{Made};
ghost use Rattle.arithmetic.specs.Words.{halved};
ghost use Rattle.theory.specs.Residues.{minus};
ghost use Rattle.std.proofs.Common.{rules, arith};

use crate::modulus::Modulus;
use crate::refusal::Refusal;
use crate::traits::Arithmetic;

#[derive(Clone, Copy, Debug)]
pub struct Montgomery {
    modulus: Modulus,
    // 1/p modulo 2^32
    reciprocal: u32,
    // 2^64 mod p, by which a number is brought in
    square: u32,
    ghost inverts: { modulus.number * reciprocal % 2 ^ 32 ≡ 1 },
    ghost squared: { square ≡ 2 ^ 64 % modulus.number },
}

// A word that stands for its 2^32nd part modulo p. Of words below p the operations only make words below p.
// An element does not hold its modulus, so what bounds its word is told by each operation, and not by its type.
#[derive(Clone, Copy, Debug)]
pub struct MontgomeryElement(u32);

// Newton's step: from 1/p modulo 2^k to 1/p modulo 2^(2k), as far as the word reaches.
fn closer(p: u32, x: u32) -> u32
    ensures doubled { (k j : ℕ) → p * x % 2 ^ k ≡ 1 → 1 ≤ j → j ≤ 2 * k → j ≤ 32 → p * result % 2 ^ j ≡ 1 }
{
    x.wrapping_mul(2u32.wrapping_sub(p.wrapping_mul(x)))
}

// 1/p modulo 2^32. An odd p is its own inverse modulo 8, and each step doubles the bits that are right: 3, 6, 12, 24, 32.
fn reciprocal_of(p: u32) -> u32
    requires { p % 2 ≡ 1 }
    ensures value { p * result % 2 ^ 32 ≡ 1 }
{
    closer(p, closer(p, closer(p, closer(p, p))))
}

impl Montgomery {
    pub fn new(modulus: u32) -> Result<Montgomery, Refusal>
        ensures made { Made modulus (λ a. a.modulus.number) result }
    {
        let modulus = Modulus::try_from(modulus)?;
        let p = modulus.number as u64;
        let reciprocal = reciprocal_of(modulus.number);
        let one = 4294967296 % p;
        let square = (one * one % p) as u32;
        Ok(Montgomery {
            modulus,
            reciprocal,
            square,
        })
    }

    // t/2^32 modulo p: t less the multiple of p that has the same low word leaves a multiple of 2^32.
    fn reduce(&self, t: u64) -> u32
        ensures value { result * 2 ^ 32 % self.now.modulus.number ≡ t % self.now.modulus.number }
        ensures word { t < self.now.modulus.number * 2 ^ 32 → result < self.now.modulus.number }
    {
        let high = (t >> 32) as u32;
        let low = (t % 4294967296) as u32;
        let times = low.wrapping_mul(self.reciprocal);
        let taken = (times as u64 * self.modulus.number as u64 >> 32) as u32;
        if high < taken {
            high + self.modulus.number - taken
        } else {
            high - taken
        }
    }

    // The word below p of a number. A number below 2p, which is all that words below p give, needs no division.
    fn settle(&self, n: u64) -> MontgomeryElement
        ensures value { result.0 % self.now.modulus.number ≡ n % self.now.modulus.number }
        ensures word { result.0 < self.now.modulus.number }
    {
        let modulus = self.modulus.number as u64;
        let once = less_once(n, modulus);
        if once < modulus {
            MontgomeryElement(once as u32)
        } else {
            MontgomeryElement((once % modulus) as u32)
        }
    }

    // What gives 0 with a word.
    fn opposite(&self, word: u32) -> u32
        ensures value { (result + word) % self.now.modulus.number ≡ 0 }
    {
        let p = self.modulus.number;
        if word < p { p - word } else { p - word % p }
    }
}

// A number less p, where that is not below 0.
fn less_once(n: u64, p: u64) -> u64
    ensures value { result % p ≡ n % p }
    ensures bound { result ≤ n }
{
    if n < p { n } else { n - p }
}

impl Arithmetic for Montgomery {
    type Element = MontgomeryElement;

    ghost modulus = { λ a. a.modulus.number };

    ghost residue = { λ a e. halved a.modulus.number e.0 };

    ghost fit = { λ a. a.modulus.fit };

    ghost under = { first_of (Prim.search rules, Prim.grind (arith, Self.row.coded.inj)) };

    fn modulus(&self) -> u32 {
        self.modulus.number
    }

    fn bring_in(&self, n: u32) -> MontgomeryElement
        ensures value { halved self.now.modulus.number result.0 ≡ n % self.now.modulus.number }
        ensures word { result.0 ≡ n * 2 ^ 32 % self.now.modulus.number }
    {
        MontgomeryElement(self.reduce(n as u64 * self.square as u64))
    }

    fn take_out(&self, e: MontgomeryElement) -> u32 {
        self.reduce(e.0 as u64)
    }

    fn add(&self, a: MontgomeryElement, b: MontgomeryElement) -> MontgomeryElement
        ensures value { halved self.now.modulus.number result.0 ≡ (halved self.now.modulus.number a.0 + halved self.now.modulus.number b.0) % self.now.modulus.number }
        ensures word { result.0 < self.now.modulus.number }
    {
        self.settle(a.0 as u64 + b.0 as u64)
    }

    fn sub(&self, a: MontgomeryElement, b: MontgomeryElement) -> MontgomeryElement
        ensures value { halved self.now.modulus.number result.0 ≡ minus self.now.modulus.number (halved self.now.modulus.number a.0) (halved self.now.modulus.number b.0) }
        ensures word { result.0 < self.now.modulus.number }
    {
        self.settle(a.0 as u64 + self.opposite(b.0) as u64)
    }

    fn mul(&self, a: MontgomeryElement, b: MontgomeryElement) -> MontgomeryElement
        ensures value { halved self.now.modulus.number result.0 ≡ halved self.now.modulus.number a.0 * halved self.now.modulus.number b.0 % self.now.modulus.number }
        ensures word { a.0 < self.now.modulus.number → b.0 < self.now.modulus.number → result.0 < self.now.modulus.number }
    {
        MontgomeryElement(self.reduce(a.0 as u64 * b.0 as u64))
    }
}
