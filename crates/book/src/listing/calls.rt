// The calls of a listing, in the order in which a user meets them.
ghost use Rattle.std.specs.Prelude.{◌≡◌, length, is_ok, IfOk, if◌then◌else◌};
ghost use Rattle.std.specs.List.{slice_get};
ghost use Rattle.std.specs.Result.{result_err};
ghost use Rattle.file.specs.Layout.{encode};
ghost use Rattle.file.specs.Reading.{decode, read_tests};
ghost use Rattle.line.specs.Output.{PutOut};
ghost use Rattle.table.specs.Chain.{chain_pairs};
ghost use Rattle.arithmetic.specs.Causes.{index_causes, first_cause};
ghost use Rattle.table.specs.Entering.{enter_causes, Entered};
ghost use Rattle.table.specs.Tables.{empty};
ghost use Rattle.book.specs.Books.{book};
ghost use Rattle.book.specs.Listings.{listing, WrittenAgain, FoundAgain};

use super::Listing;
use crate::book::Book;
use arithmetic::Refusal;
use std::alloc::{AllocError, Global};
use table::{Fault, Pair, RecordTable};

impl Listing {
    // Empty, with index 2. The memory for 1,023 pairs is reserved here, so this call alone can want for it.
    pub fn new(heap: Global) -> Result<Listing, AllocError>
        ensures made { IfOk result (λ l. listing l ≡ empty 2) }
    {
        let table = RecordTable::new(heap)?;
        Ok(Listing { table })
    }

    // Empties the listing for an index.
    pub fn begin(&mut self, index: u32) -> Result<(), Refusal>
        ensures answer { result_err result ≡ first_cause (index_causes index) }
        ensures after { listing self.new ≡ (if is_ok result then empty index else listing self.old) }
    {
        self.table.begin(index)
    }

    // Adds a pair that is fit for the index and whose modulus is not listed yet.
    pub fn enter(&mut self, modulus: u32, generator: u32) -> Result<(), Refusal>
        ensures answer { result_err result ≡ first_cause (enter_causes (listing self.old) modulus generator) }
        ensures after { Entered (listing self.old) (listing self.new) modulus generator result }
    {
        self.table.enter(modulus, generator)
    }

    // Index, count, pair and writing are one line each for a listing and a book: a trait of both would be no plainer, and
    // would have to show the table to every caller.
    pub fn index(&self) -> u32
        ensures value { result ≡ (listing self.now).index }
    {
        self.table.index()
    }

    // How many pairs are listed.
    pub fn count(&self) -> usize
        ensures value { result ≡ length (listing self.now).records }
    {
        self.table.count()
    }

    // The pair at that position of the chain, counted from 0, in rising order of modulus; none past the last.
    pub fn pair(&self, position: usize) -> Option<Pair>
        ensures value { result ≡ slice_get (chain_pairs (listing self.now)) position }
    {
        self.table.pair(position)
    }

    // Puts the listing out as a file, head and pairs.
    pub fn write(&self, output: &mut [u8]) -> Result<usize, Refusal>
        ensures puts { PutOut (encode (listing self.now)) output.old output.new result }
    {
        file::write(&self.table, output)
    }

    // Reads a file, any bytes. Where they have a fault, the listing is empty then, with index 2.
    pub fn read(&mut self, bytes: &[u8]) -> Result<(), Fault>
        ensures answer { result_err result ≡ first_cause (read_tests bytes.now) }
        ensures after { listing self.new ≡ (if is_ok result then decode bytes.now else empty 2) }
        ensures written { WrittenAgain bytes.now (listing self.new) result }
        ensures found { FoundAgain bytes.now (listing self.new) result }
    {
        file::read(&mut self.table, bytes)
    }

    // Turns the listing into a book; it takes no further pair then.
    pub fn release(self) -> Book
        ensures same { book result ≡ listing self }
    {
        Book { table: self.table }
    }
}
