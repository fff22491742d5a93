// What every arithmetic means: its modulus, and the residue that each of its elements stands for.
ghost use Rattle.std.specs.Prelude.{◌≡◌, ℕ, ◌+◌, ◌*◌, ◌%◌, ◌<◌};
ghost use Rattle.theory.specs.Pairs.{FitModulus};
ghost use Rattle.theory.specs.Residues.{minus};

// Residues modulo an odd number from 5 to 2147483647, kept as elements of a kind of its own. No operation refuses.
pub trait Arithmetic {
    // No equality is asked of it: of some arithmetics several elements stand for one residue.
    type Element: Copy;

    ghost modulus: { Self → ℕ };

    // the residue, from 0 to p − 1, that an element stands for
    ghost residue: { Self → Self.Element → ℕ };

    fn modulus(&self) -> u32
        ensures value { result ≡ modulus self.now };

    // The element of a number's remainder.
    fn bring_in(&self, n: u32) -> Self::Element
        ensures value { residue self.now result ≡ n % modulus self.now };

    fn take_out(&self, e: Self::Element) -> u32
        ensures value { result ≡ residue self.now e };

    fn add(&self, a: Self::Element, b: Self::Element) -> Self::Element
        ensures value { residue self.now result ≡ (residue self.now a + residue self.now b) % modulus self.now };

    fn sub(&self, a: Self::Element, b: Self::Element) -> Self::Element
        ensures value { residue self.now result ≡ minus (modulus self.now) (residue self.now a) (residue self.now b) };

    fn mul(&self, a: Self::Element, b: Self::Element) -> Self::Element
        ensures value { residue self.now result ≡ residue self.now a * residue self.now b % modulus self.now };

    ghost fit: { (a : Self) → FitModulus (modulus a) };

    ghost under: { (a : Self) (e : Self.Element) → residue a e < modulus a };
}
