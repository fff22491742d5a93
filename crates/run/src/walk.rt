// Walking the rows of a doubling run.
ghost use Rattle.std.specs.Prelude.{◌≡◌, ◌+◌, ◌-◌, ◌%◌, ◌<◌, ◌≤◌, min};
ghost use Rattle.theory.specs.Direct.{terms_of};
ghost use Rattle.theory.specs.Doubling.{row_length_of, doubling_sum};
ghost use Rattle.run.specs.Places.{progress_after};
ghost use Rattle.run.specs.Walks.{Walking, Grows};

use crate::progress::{DoublingPlace, Progress};
use crate::rows::Rows;
use crate::share::Share;
use crate::stretch::{Stretch, take_stretch};
use arithmetic::Arithmetic;
use theory::Kind;

// A share of a doubling run while it is worked: where it stands in the rows. That a method leaves the rows as they were is
// a clause of each: what else it leaves differs.
#[derive(Drop)]
pub(crate) struct RowWalk<'a, W: Arithmetic> {
    pub(crate) rows: Rows<'a, W>,
    // the terms of the run that are taken
    pub(crate) taken: u32,
    // of the next term in its row
    pub(crate) place: u32,
    // of the first term of the row
    pub(crate) row_point: u32,
    pub(crate) row_weight: W::Element,
    pub(crate) next: Stretch<W::Element>,
    ghost walking: { Walking rows.modulus rows.generator rows.index taken place row_point (W.residue rows.arithmetic.now row_weight) next.point (W.residue rows.arithmetic.now next.weight) },
}

impl<'a, W: Arithmetic> RowWalk<'a, W> {
    // Begins where the run stands.
    pub(crate) fn begin(share: &Share<'_, 'a, W>, from: DoublingPlace) -> RowWalk<'a, W>
        requires place { share.now.run.now.progress ≡ Progress.Doubling from }
        ensures arithmetic { result.rows.arithmetic.now ≡ share.now.arithmetic.now }
        ensures index { result.rows.index ≡ share.now.run.now.index }
        ensures modulus { result.rows.modulus ≡ share.now.run.now.modulus }
        ensures generator { result.rows.generator ≡ share.now.run.now.generator }
        ensures inside { result.place < row_length_of share.now.run.now.modulus }
        ensures taken { result.taken ≡ share.now.run.now.taken }
        ensures sum { W.residue share.now.arithmetic.now result.next.sum ≡ doubling_sum share.now.run.now.modulus share.now.run.now.generator share.now.run.now.index share.now.run.now.taken }
    {
        let arithmetic = share.arithmetic;
        RowWalk {
            rows: Rows::new(share, from.row_length),
            taken: share.run.taken,
            place: from.place,
            row_point: from.row_point,
            row_weight: arithmetic.bring_in(from.row_weight),
            next: Stretch {
                sum: arithmetic.bring_in(share.run.sum),
                point: from.point,
                weight: arithmetic.bring_in(from.weight),
            },
        }
    }

    // How many of so many terms lie in the row.
    pub(crate) fn in_row(&self, terms: u32) -> u32
        ensures value { result ≡ min terms (row_length_of self.now.rows.modulus - self.now.place) }
    {
        terms.min(self.rows.row_length - self.place)
    }

    // Takes so many terms of the row one by one, and turns to the next row where it is at its end.
    pub(crate) fn take_singly(&mut self, terms: u32)
        requires room { self.old.place + terms ≤ row_length_of self.old.rows.modulus }
        requires few { self.old.taken + terms ≤ terms_of self.old.rows.modulus }
        ensures rows { self.new.rows ≡ self.old.rows }
        ensures taken { self.new.taken ≡ self.old.taken + terms }
        ensures place { self.new.place ≡ (self.old.place + terms) % row_length_of self.old.rows.modulus }
        ensures sum { Grows self.old.rows.modulus self.old.rows.generator self.old.rows.index self.old.taken terms (W.residue self.old.rows.arithmetic.now self.old.next.sum) (W.residue self.old.rows.arithmetic.now self.new.next.sum) }
    {
        self.next = take_stretch(self.rows.arithmetic, self.rows.ratio, self.next, terms);
        self.taken += terms;
        self.place += terms;
        self.turn();
    }

    // Turns to the next row where the row is at its end.
    fn turn(&mut self)
        ensures rows { self.new.rows ≡ self.old.rows }
        ensures taken { self.new.taken ≡ self.old.taken }
        ensures place { self.new.place ≡ self.old.place % row_length_of self.old.rows.modulus }
        ensures sum { self.new.next.sum ≡ self.old.next.sum }
    {
        if self.place < self.rows.row_length {
            return;
        }
        let (_, row_point) = self.rows.row_step.times(self.row_point);
        let row_weight = self.rows.arithmetic.mul(self.row_weight, self.rows.stride);
        self.place = 0;
        self.row_point = row_point;
        self.row_weight = row_weight;
        self.next.point = row_point;
        self.next.weight = row_weight;
    }

    // The sum and the place that the walk ends with, as the run keeps them.
    pub(crate) fn end(&self) -> (u32, Progress)
        requires inside { self.now.place < row_length_of self.now.rows.modulus }
        ensures sum { result.0 ≡ W.residue self.now.rows.arithmetic.now self.now.next.sum }
        ensures place { result.1 ≡ progress_after Kind.Doubling self.now.rows.modulus self.now.rows.generator self.now.rows.index self.now.taken }
    {
        let arithmetic = self.rows.arithmetic;
        let place = DoublingPlace {
            row_length: self.rows.row_length,
            place: self.place,
            row_point: self.row_point,
            row_weight: arithmetic.take_out(self.row_weight),
            point: self.next.point,
            weight: arithmetic.take_out(self.next.weight),
        };
        (
            arithmetic.take_out(self.next.sum),
            Progress::Doubling(place),
        )
    }
}
