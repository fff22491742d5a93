// One of two sources, chosen when the program runs.
ghost use Rattle.either.specs.Either.{either};
ghost use Rattle.std.proofs.Common.{rules};

use crate::traits::DigitSource;
use either::{Either, for_both};

impl<L: DigitSource, R: DigitSource> DigitSource for Either<L, R> {
    ghost modulus = { either L.DigitSource.modulus R.DigitSource.modulus };

    ghost taken = { either L.DigitSource.taken R.DigitSource.taken };

    ghost fit = { Prim.search rules };

    ghost bounded = { Prim.search rules };

    fn modulus(&self) -> u32 {
        for_both!(self, source => source.modulus())
    }

    fn count(&self) -> u64 {
        for_both!(self, source => source.count())
    }

    fn group(&mut self, x: u32) -> (u64, u32) {
        for_both!(self, source => source.group(x))
    }
}
