// What a table tells.
ghost use Rattle.std.specs.Prelude.{◌≡◌, ◌≤◌, length};
ghost use Rattle.std.specs.List.{slice_get};
ghost use Rattle.table.specs.Chain.{numbered, number_of, Only, chain_pairs};
ghost use Rattle.table.specs.Fitness.{PairFits};
ghost use Rattle.table.specs.Tables.{contents};

use super::RecordTable;
use super::walk::numbered;
use crate::pair::{Pair, Record};

impl RecordTable {
    pub fn index(&self) -> u32
        ensures value { result ≡ (contents self.now).index }
    {
        self.index
    }

    // How many pairs are listed.
    pub fn count(&self) -> usize
        ensures value { result ≡ length (contents self.now).records }
    {
        self.records.len()
    }

    // The number of the chain's first record, 0 where there is none.
    pub fn first(&self) -> u32
        ensures value { result ≡ (contents self.now).first }
    {
        self.first
    }

    // All records, in order of their numbers.
    pub fn records(&self) -> &[Record]
        ensures value { result.now ≡ (contents self.now).records }
    {
        self.records.as_slice()
    }

    // The record of that number, where there is one.
    #[tactic(auto, using(crate::proofs::Listed::numbered_fits))]
    pub fn record(&self, number: u32) -> Option<Record>
        ensures value { result ≡ numbered (contents self.now).records number }
        ensures fit { PairFits (contents self.now).index result }
    {
        numbered(self.records.as_slice(), number)
    }

    // The number of the record that has the modulus, where it is listed.
    #[tactic(auto, using(crate::proofs::Listed::only_one))]
    pub fn find(&self, modulus: u32) -> Option<u32>
        ensures value { result ≡ number_of (contents self.now).records modulus }
        ensures only { Only (contents self.now).records modulus result }
    {
        number_of(self.records.as_slice(), modulus)
    }

    // The pair at that position of the chain, counted from 0, in rising order of modulus; none past the last.
    pub fn pair(&self, position: usize) -> Option<Pair>
        ensures value { result ≡ slice_get (chain_pairs (contents self.now)) position }
    {
        self.chain().pair_at(position)
    }
}

fn number_of(records: &[Record], modulus: u32) -> Option<u32>
    requires { length records.now ≤ 1023 }
    ensures value { result ≡ number_of records.now modulus }
{
    let place = records.iter().position(|record| record.modulus == modulus)?;
    Some(place as u32 + 1)
}
