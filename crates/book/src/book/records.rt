// Finding the record of a modulus, and the one that waits for a residue.
ghost use Rattle.std.specs.Prelude.{◌≡◌};
ghost use Rattle.table.specs.Fitness.{PairFits};
ghost use Rattle.book.specs.Books.{book, Admitted};
ghost use Rattle.book.specs.Worked.{record_of};

use super::Book;
use arithmetic::Refusal;
use run::FinishedResidue;
use table::Record;

impl Book {
    // The record of the modulus, where it is listed.
    pub(super) fn listed(&self, modulus: u32) -> Option<Record>
        ensures value { result ≡ record_of (book self.now).records modulus }
        ensures fit { PairFits (book self.now).index result }
    {
        let number = self.table.find(modulus)?;
        self.table.record(number)
    }

    // The number of the record that waits for the residue.
    pub(super) fn admit(&self, finished: &FinishedResidue) -> Result<u32, Refusal>
        ensures admitted { Admitted (book self.now) finished.now result }
    {
        if finished.index() != self.table.index() {
            return Err(Refusal::OtherIndex);
        }
        let number = self
            .table
            .find(finished.modulus())
            .ok_or(Refusal::NotListed)?;
        let record = self.table.record(number).ok_or(Refusal::NotListed)?;
        if record.generator != finished.generator() {
            return Err(Refusal::OtherGenerator);
        }
        if record.residue.is_some() {
            return Err(Refusal::AlreadyFilled);
        }
        Ok(number)
    }
}
