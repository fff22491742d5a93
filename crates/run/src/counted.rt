// The terms of a doubling run, counted in groups of eight.
ghost use Rattle.std.specs.Prelude.{◌≡◌, ℕ, ◌+◌, ◌*◌, ◌%◌, ◌^◌, ◌<◌, ◌≤◌, slice_index};
ghost use Rattle.run.specs.Counting.{Room, HandsOut, weighed, groups_of};
ghost use Rattle.run.specs.Reached.{Reached};
ghost use Rattle.theory.specs.Direct.{terms_of};
ghost use Rattle.theory.specs.Doubling.{row_length_of, doubling_sum};

use crate::gather::gather;
use crate::groups::take_groups;
use crate::progress::{DoublingPlace, Progress};
use crate::share::Share;
use crate::walk::RowWalk;
use arithmetic::Arithmetic;
use digits::DigitSource;

impl<W: Arithmetic> RowWalk<'_, W> {
    // Counts so many groups of the row, whose weights go into the cells.
    fn take_groups<S: DigitSource>(&mut self, source: &mut S, cells: &mut [u64; 256], groups: u32)
        requires source { S.modulus source.old ≡ self.old.rows.modulus }
        requires row { self.old.place + 8 * groups ≤ row_length_of self.old.rows.modulus }
        requires few { self.old.taken + 8 * groups ≤ terms_of self.old.rows.modulus }
        requires room { (i : ℕ) → slice_index cells.old i + groups * self.old.rows.modulus < 2 ^ 64 }
        ensures rows { self.new.rows ≡ self.old.rows }
        ensures taken { self.new.taken ≡ self.old.taken + 8 * groups }
        ensures place { self.new.place ≡ self.old.place + 8 * groups }
        ensures sum { self.new.next.sum ≡ self.old.next.sum }
        ensures counted { (s : ℕ) → (s + weighed self.old.rows.modulus (W.residue self.old.rows.arithmetic.now self.old.rows.ratio) 8 cells.old) % self.old.rows.modulus ≡ doubling_sum self.old.rows.modulus self.old.rows.generator self.old.rows.index self.old.taken → (s + weighed self.old.rows.modulus (W.residue self.old.rows.arithmetic.now self.old.rows.ratio) 8 cells.new) % self.old.rows.modulus ≡ doubling_sum self.old.rows.modulus self.old.rows.generator self.old.rows.index (self.old.taken + 8 * groups) }
        ensures room { Room self.old.rows.modulus groups cells.old cells.new }
        ensures source { HandsOut S.modulus S.taken source.old source.new groups }
    {
        self.next = take_groups(&self.rows, source, cells, self.next, groups);
        self.taken += 8 * groups;
        self.place += 8 * groups;
    }

    // Adds what the cells come to.
    fn add_counted(&mut self, cells: &[u64; 256])
        ensures rows { self.new.rows ≡ self.old.rows }
        ensures taken { self.new.taken ≡ self.old.taken }
        ensures place { self.new.place ≡ self.old.place }
        ensures sum { W.residue self.old.rows.arithmetic.now self.new.next.sum ≡ (W.residue self.old.rows.arithmetic.now self.old.next.sum + weighed self.old.rows.modulus (W.residue self.old.rows.arithmetic.now self.old.rows.ratio) 8 cells.now) % self.old.rows.modulus }
    {
        let arithmetic = self.rows.arithmetic;
        let gathered = gather(arithmetic, self.rows.ratio, cells);
        self.next.sum = arithmetic.add(self.next.sum, gathered);
    }
}

impl<W: Arithmetic> Share<'_, '_, W> {
    // Takes the terms of a doubling run: groups of eight where eight are left in the row and the share, and the others
    // one by one.
    pub(crate) fn take_counted<S: DigitSource>(
        &self,
        source: &mut S,
        cells: &mut [u64; 256],
        from: DoublingPlace,
    ) -> (u32, Progress)
        requires source { S.modulus source.old ≡ self.now.run.now.modulus }
        requires place { self.now.run.now.progress ≡ Progress.Doubling from }
        requires few { self.now.terms ≤ 1048576 }
        ensures reached { Reached self.now.run.now self.now.terms result }
        ensures source { HandsOut S.modulus S.taken source.old source.new (groups_of 8 (row_length_of self.now.run.now.modulus) (self.now.run.now.taken % row_length_of self.now.run.now.modulus) self.now.terms) }
    {
        *cells = [0; 256];
        let mut walk = RowWalk::begin(self, from);
        let mut left = self.terms;
        // no plainer as one loop with that of single terms: a trait would ask for the cells' room and the source's count
        while left > 0 {
            let stretch = walk.in_row(left);
            walk.take_groups(source, cells, stretch / 8);
            walk.take_singly(stretch % 8);
            left -= stretch;
        }
        walk.add_counted(cells);
        walk.end()
    }
}
