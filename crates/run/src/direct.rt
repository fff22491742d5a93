// The terms of a direct run.
ghost use Rattle.std.specs.Prelude.{◌≡◌};
ghost use Rattle.run.specs.Reached.{Reached};

use crate::multiplier::Multiplier;
use crate::progress::{DirectPlace, Progress};
use crate::share::Share;
use arithmetic::{Arithmetic, raise};

impl<W: Arithmetic> Share<'_, '_, W> {
    // Takes the terms of a direct run, one by one.
    pub(crate) fn take_direct(&self, from: DirectPlace) -> (u32, Progress)
        requires place { self.now.run.now.progress ≡ Progress.Direct from }
        ensures reached { Reached self.now.run.now self.now.terms result }
    {
        let run = self.run;
        let arithmetic = self.arithmetic;
        let generator = Multiplier::new(run.generator, run.modulus);
        let half = arithmetic.bring_in(run.modulus / 2 + 1);
        let half_below = arithmetic.mul(arithmetic.bring_in(run.generator - 1), half);
        let stride = raise(
            arithmetic,
            arithmetic.bring_in(run.generator),
            run.index - 1,
        );
        // locals, and no struct of them: the loop is hot
        let mut sum = arithmetic.bring_in(run.sum);
        let mut weight = arithmetic.bring_in(from.weight);
        let mut point = from.point;
        for _i in 0..self.terms {
            let (quotient, next) = generator.times(point);
            weight = arithmetic.mul(weight, stride);
            let factor = arithmetic.sub(half_below, arithmetic.bring_in(quotient));
            sum = arithmetic.add(sum, arithmetic.mul(factor, weight));
            point = next;
        }
        let place = DirectPlace {
            point,
            weight: arithmetic.take_out(weight),
        };
        (arithmetic.take_out(sum), Progress::Direct(place))
    }
}
