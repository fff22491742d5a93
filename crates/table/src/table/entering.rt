// Making a table, emptying it for an index, and entering pairs.
ghost use Rattle.std.specs.Prelude.{◌≡◌, true, is_ok, IfOk, if◌then◌else◌};
ghost use Rattle.std.specs.Result.{result_err};
ghost use Rattle.arithmetic.specs.Causes.{index_causes, index_stands, first_cause};
ghost use Rattle.table.specs.Entering.{enter_causes, Entered};
ghost use Rattle.table.specs.Tables.{contents, empty};

use super::RecordTable;
use super::chain::relink;
use crate::pair::Record;
use arithmetic::{Refusal, try_index, try_pair};
use std::alloc::{AllocError, Global};

impl RecordTable {
    // Empty, with index 2. This alone can fail for want of memory.
    #[tactic(auto, using(crate::proofs::Records::chained_none, crate::proofs::Records::every_none))]
    pub fn new(heap: Global) -> Result<RecordTable, AllocError>
        ensures made { IfOk result (λ t. contents t ≡ empty 2) }
    {
        let records = Vec::with_capacity(heap, 1023)?;
        Ok(RecordTable {
            first: 0,
            index: 2,
            records,
        })
    }

    // Empties the table for an index. What refuses an index is promised thrice, here, by the test and by a listing, as each
    // is a public call.
    pub fn begin(&mut self, index: u32) -> Result<(), Refusal>
        ensures answer { result_err result ≡ first_cause (index_causes index) }
        ensures after { contents self.new ≡ (if is_ok result then empty index else contents self.old) }
    {
        try_index(index)?;
        self.clear(index);
        Ok(())
    }

    #[tactic(auto, using(crate::proofs::Records::chained_none, crate::proofs::Records::every_none))]
    pub(super) fn clear(&mut self, index: u32)
        requires stands { index_stands index ≡ true }
        ensures after { contents self.new ≡ empty index }
    {
        self.records.clear();
        self.first = 0;
        self.index = index;
    }

    // Adds a pair as the record numbered one above the last, and puts it into the chain in rising order of modulus.
    pub fn enter(&mut self, modulus: u32, generator: u32) -> Result<(), Refusal>
        ensures answer { result_err result ≡ first_cause (enter_causes (contents self.old) modulus generator) }
        ensures after { Entered (contents self.old) (contents self.new) modulus generator result }
    {
        self.admit(modulus, generator)?;
        let chain = self.chain();
        let at = chain.place_of(modulus);
        let next = chain.after(at);
        let number = self.records.len() as u32 + 1;
        relink(&mut self.first, &mut self.records, at, number);
        self.records.push_reserved(Record {
            next,
            modulus,
            generator,
            residue: None,
        });
        Ok(())
    }

    fn admit(&self, modulus: u32, generator: u32) -> Result<(), Refusal>
        ensures answer { result_err result ≡ first_cause (enter_causes (contents self.now) modulus generator) }
    {
        try_pair(self.index, modulus, generator)?;
        if self.records.len() >= 1023 {
            return Err(Refusal::ListingFull);
        }
        if self.find(modulus).is_some() {
            return Err(Refusal::AlreadyListed);
        }
        Ok(())
    }
}
