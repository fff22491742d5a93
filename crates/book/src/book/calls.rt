// The calls of a book, in the order in which a user meets them.
ghost use Rattle.std.specs.Prelude.{◌≡◌, length};
ghost use Rattle.std.specs.List.{slice_get};
ghost use Rattle.file.specs.Layout.{encode};
ghost use Rattle.line.specs.Output.{PutOut};
ghost use Rattle.table.specs.Chain.{chain_pairs};
ghost use Rattle.book.specs.Books.{book, Opened, FilledIn, ShownFor, share_of};

use super::Book;
use arithmetic::Refusal;
use run::{FinishedResidue, Run};
use table::Pair;
use theory::Kind;

impl Book {
    pub fn index(&self) -> u32
        ensures value { result ≡ (book self.now).index }
    {
        self.table.index()
    }

    // How many pairs are listed.
    pub fn count(&self) -> usize
        ensures value { result ≡ length (book self.now).records }
    {
        self.table.count()
    }

    // The pair at that position of the chain, counted from 0, in rising order of modulus; none past the last.
    pub fn pair(&self, position: usize) -> Option<Pair>
        ensures value { result ≡ slice_get (chain_pairs (book self.now)) position }
    {
        self.table.pair(position)
    }

    // A run of the book's index and of the pair listed for the modulus, whose record waits. Several may stand open for
    // one modulus.
    pub fn open(&self, kind: Kind, modulus: u32) -> Result<Run, Refusal>
        ensures opened { Opened (book self.now) kind modulus result }
    {
        let record = self.listed(modulus).ok_or(Refusal::NotListed)?;
        if record.residue.is_some() {
            return Err(Refusal::AlreadyFilled);
        }
        Run::open(kind, self.table.index(), record.modulus, record.generator)
    }

    // Uses up a finished residue: the record of its modulus has it then. A refused residue is handed back.
    pub fn fill(&mut self, finished: FinishedResidue) -> Result<(), (Refusal, FinishedResidue)>
        ensures filled { FilledIn (book self.old) (book self.new) finished result }
    {
        let number = match self.admit(&finished) {
            Ok(number) => number,
            Err(refusal) => return Err((refusal, finished)),
        };
        let _ = self.table.fill(number, finished.residue());
        Ok(())
    }

    // The residue of the modulus, none while its record waits.
    pub fn show(&self, modulus: u32) -> Result<Option<u32>, Refusal>
        ensures shown { ShownFor (book self.now) modulus result }
    {
        let found = self.listed(modulus).ok_or(Refusal::NotListed)?;
        Ok(found.residue)
    }

    // How much of the book is filled, in thousandths: the whole part, and 1,000 for a book that lists nothing.
    pub fn share(&self) -> u32
        ensures value { result ≡ share_of (book self.now).records }
    {
        let listed = self.table.count();
        if listed == 0 {
            return 1000;
        }
        let filled = self
            .table
            .records()
            .iter()
            .filter(|record| record.residue.is_some())
            .count();
        (1000 * filled / listed) as u32
    }

    // Puts the book out as a file, head and pairs.
    pub fn write(&self, output: &mut [u8]) -> Result<usize, Refusal>
        ensures puts { PutOut (encode (book self.now)) output.old output.new result }
    {
        file::write(&self.table, output)
    }
}
