// Counting a doubling run on.
ghost use Rattle.std.specs.Prelude.{◌≡◌, length};
ghost use Rattle.run.specs.Calls.{Shared};
ghost use Rattle.run.specs.Counting.{Zeroes};
ghost use Rattle.run.specs.CountingOn.{count_causes, Lent, Read};

use crate::cells::Guard;
use crate::progress::Progress;
use crate::share::{Share, try_terms};
use crate::state::Run;
use arithmetic::{Arithmetic, Refusal};
use digits::DigitSource;

impl Run {
    // Counts on in cells that are 256. A function of its own: the guard and the test of the number of cells together got
    // no proof.
    fn count_in<W: Arithmetic, S: DigitSource>(
        &mut self,
        arithmetic: &W,
        source: &mut S,
        cells: &mut [u64; 256],
        terms: u32,
    ) -> Result<u32, Refusal>
        ensures shared { Shared (count_causes self.old 256 (W.modulus arithmetic.now) (S.modulus source.old) terms) terms self.old self.new result }
        ensures zeroes { Zeroes cells.new }
        ensures source { Read S.modulus S.taken self.old source.old source.new result }
    {
        let guard = Guard { cells };
        self.try_arithmetic(arithmetic)?;
        if source.modulus() != self.modulus {
            return Err(Refusal::OtherSource);
        }
        try_terms(terms)?;
        let Progress::Doubling(from) = self.progress else {
            return Err(Refusal::DirectRun);
        };
        let terms = self.share_of(terms)?;
        let share = Share {
            run: self,
            arithmetic,
            terms,
        };
        let reached = share.take_counted(source, guard.cells, from);
        self.move_on(terms, reached);
        Ok(terms)
    }

    // Does to the run what carrying on does, by groups of eight terms where it can. The 256 cells may hold anything
    // before, and hold 0 after.
    pub fn count_on<W: Arithmetic, S: DigitSource>(
        &mut self,
        arithmetic: &W,
        source: &mut S,
        cells: &mut [u64],
        terms: u32,
    ) -> Result<u32, Refusal>
        ensures shared { Shared (count_causes self.old (length cells.old) (W.modulus arithmetic.now) (S.modulus source.old) terms) terms self.old self.new result }
        ensures cells { Lent cells.old cells.new }
        ensures source { Read S.modulus S.taken self.old source.old source.new result }
    {
        let Some(cells) = cells.as_mut_array() else {
            return Err(Refusal::CellCount);
        };
        self.count_in(arithmetic, source, cells, terms)
    }
}
