// What every digit source means, and what every division that a source may work by.
ghost use Rattle.std.specs.Prelude.{◌≡◌, ℕ, ◌+◌, ◌*◌, ◌/◌, ◌%◌, ◌^◌, ◌<◌};
ghost use Rattle.digits.specs.Counts.{capped};
ghost use Rattle.theory.specs.Pairs.{FitModulus};

use arithmetic::Modulus;

// A source of groups of eight binary digits: it has a modulus p, and counts the groups that it hands out. Nothing refuses.
pub trait DigitSource {
    ghost modulus: { Self → ℕ };

    // the groups handed out, counted up to 2^63 − 1
    ghost taken: { Self → ℕ };

    fn modulus(&self) -> u32
        ensures value { result ≡ modulus self.now };

    fn count(&self) -> u64
        ensures value { result ≡ taken self.now };

    // The whole quotient of 256·x by p, which for x below p is eight binary digits of x/p, and the remainder.
    fn group(&mut self, x: u32) -> (u64, u32)
        ensures quotient { result.0 ≡ 256 * x / modulus self.old }
        ensures remainder { result.1 ≡ 256 * x % modulus self.old }
        ensures same { modulus self.new ≡ modulus self.old }
        ensures count { taken self.new ≡ capped (taken self.old + 1) };

    ghost fit: { (s : Self) → FitModulus (modulus s) };

    ghost bounded: { (s : Self) → taken s < 2 ^ 63 };
}

// A way to divide by one modulus, with what is kept for it. Nothing refuses.
pub trait Division {
    ghost divisor: { Self → ℕ };

    fn by(modulus: Modulus) -> Self
        ensures value { divisor result ≡ modulus.number };

    fn divisor(&self) -> u32
        ensures value { result ≡ divisor self.now };

    // The whole quotient of 256·x and the remainder.
    fn divide(&self, x: u32) -> (u64, u32)
        ensures quotient { result.0 ≡ 256 * x / divisor self.now }
        ensures remainder { result.1 ≡ 256 * x % divisor self.now };

    ghost fit: { (d : Self) → FitModulus (divisor d) };
}
