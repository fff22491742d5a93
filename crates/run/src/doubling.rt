// The terms of a doubling run, taken one by one.
ghost use Rattle.std.specs.Prelude.{◌≡◌};
ghost use Rattle.run.specs.Reached.{Reached};

use crate::progress::{DoublingPlace, Progress};
use crate::share::Share;
use crate::walk::RowWalk;
use arithmetic::Arithmetic;

impl<W: Arithmetic> Share<'_, '_, W> {
    // Takes the terms of a doubling run, row by row. The place is passed beside the run, here and where terms are counted,
    // as whoever told the kinds apart has it.
    pub(crate) fn take_doubling(&self, from: DoublingPlace) -> (u32, Progress)
        requires place { self.now.run.now.progress ≡ Progress.Doubling from }
        ensures reached { Reached self.now.run.now self.now.terms result }
    {
        let mut walk = RowWalk::begin(self, from);
        let mut left = self.terms;
        // no plainer as an iterator: how long a stretch is hangs on the place that the one before it left
        while left > 0 {
            let stretch = walk.in_row(left);
            walk.take_singly(stretch);
            left -= stretch;
        }
        walk.end()
    }
}
