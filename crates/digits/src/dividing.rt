// The division of the machine.
ghost use Rattle.std.proofs.Common.{rules};

use crate::traits::Division;
use arithmetic::Modulus;

#[derive(Clone, Copy, Debug)]
pub struct Dividing {
    modulus: Modulus,
}

impl Division for Dividing {
    ghost divisor = { λ d. d.modulus.number };

    ghost fit = { λ d. d.modulus.fit };

    fn by(modulus: Modulus) -> Dividing {
        Dividing { modulus }
    }

    #[inline]
    fn divisor(&self) -> u32 {
        self.modulus.number
    }

    #[inline]
    fn divide(&self, x: u32) -> (u64, u32) {
        let wide = x as u64 * 256;
        let modulus = self.modulus.number as u64;
        (wide / modulus, (wide % modulus) as u32)
    }
}
