// A modulus, which everything that is made for one begins with.
ghost use Rattle.arithmetic.specs.Made.{Made, Tried};
ghost use Rattle.theory.specs.Pairs.{FitModulus};

use crate::refusal::Refusal;

// A number that is odd and from 5 to 2147483647.
#[derive(Clone, Copy, PartialEq, Eq, Debug)]
pub struct Modulus {
    pub number: u32,
    pub ghost fit: { FitModulus number },
}

impl TryFrom<u32> for Modulus {
    type Error = Refusal;

    ghost try_from_gives = { λ number made. Made number (λ p. p.number) made };

    fn try_from(number: u32) -> Result<Modulus, Refusal> {
        if number % 2 == 0 || !(5..=2147483647).contains(&number) {
            return Err(Refusal::Modulus);
        }
        Ok(Modulus { number })
    }
}

// Refuses a number that is even or outside 5 to 2147483647.
pub fn try_modulus(modulus: u32) -> Result<(), Refusal>
    ensures tried { Tried modulus result }
{
    Modulus::try_from(modulus)?;
    Ok(())
}
