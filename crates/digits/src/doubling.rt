// The division that doubles and subtracts, once for each digit.
ghost use Rattle.std.specs.Prelude.{◌≡◌, ◌+◌, ◌*◌, ◌^◌, ◌<◌};
ghost use Rattle.std.proofs.Common.{rules};

use crate::traits::Division;
use arithmetic::Modulus;

#[derive(Clone, Copy, Debug)]
pub struct Doubling {
    modulus: Modulus,
}

// The quotient and the rest of x by p. For a point both are there without a division.
fn start(p: u32, x: u32) -> (u64, u32)
    requires { 0 < p }
    ensures whole { result.0 * p + result.1 ≡ x }
    ensures rest { result.1 < p }
{
    if x < p {
        (0, x)
    } else {
        ((x / p) as u64, x % p)
    }
}

// The quotient and the rest of twice the number: one digit more.
fn doubled(p: u32, quotient: u64, rest: u32) -> (u64, u32)
    requires fits { p < 2 ^ 31 }
    requires below { rest < p }
    requires room { quotient < 2 ^ 62 }
    ensures whole { result.0 * p + result.1 ≡ 2 * (quotient * p + rest) }
    ensures rest { result.1 < p }
{
    let twice = 2 * rest;
    if twice < p {
        (2 * quotient, twice)
    } else {
        (2 * quotient + 1, twice - p)
    }
}

impl Division for Doubling {
    ghost divisor = { λ d. d.modulus.number };

    ghost fit = { λ d. d.modulus.fit };

    fn by(modulus: Modulus) -> Doubling {
        Doubling { modulus }
    }

    #[inline]
    fn divisor(&self) -> u32 {
        self.modulus.number
    }

    fn divide(&self, x: u32) -> (u64, u32) {
        let p = self.modulus.number;
        let (mut quotient, mut rest) = start(p, x);
        // a loop, and no fold: the fold's closure would have to require what the invariant keeps of both numbers
        for _i in 0..8u32 {
            (quotient, rest) = doubled(p, quotient, rest);
        }
        (quotient, rest)
    }
}
