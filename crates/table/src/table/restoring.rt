// Having a table hold records that come from outside: they are judged along their chain first.
ghost use Rattle.std.specs.Prelude.{◌≡◌, ◌+◌, ◌≤◌, ◌++◌, length, is_ok, if◌then◌else◌, vec_len, vec_capacity};
ghost use Rattle.std.specs.Result.{result_err};
ghost use Rattle.table.specs.Chain.{rows};
ghost use Rattle.table.specs.Faults.{record_tests, chain_tests, restore_tests};
ghost use Rattle.arithmetic.specs.Causes.{first_cause};
ghost use Rattle.table.specs.Tables.{contents, empty, holding};

use super::RecordTable;
use super::walk::Walk;
use crate::fault::{Damage, Fault};
use crate::pair::Record;
use arithmetic::{try_index, try_pair};

impl RecordTable {
    // As a new table: empty, with index 2.
    pub fn reset(&mut self)
        ensures after { contents self.new ≡ empty 2 }
    {
        self.clear(2);
    }

    // Holds these records, of which none has a residue, with this first of the chain and this index. Where they have a
    // fault, the table is empty then, with index 2.
    // The three one by one, and no chain: that keeps that it rises, for which these are judged first.
    #[tactic(auto, using(crate::proofs::Judged::restored))]
    pub fn restore(&mut self, first: u32, index: u32, records: &[Record]) -> Result<(), Fault>
        ensures answer { result_err result ≡ first_cause (restore_tests first index records.now) }
        ensures after { contents self.new ≡ (if is_ok result then holding first index records.now else empty 2) }
    {
        self.reset();
        judge(first, index, records)?;
        copy_all(&mut self.records, records);
        self.first = first;
        self.index = index;
        Ok(())
    }
}

// `extend_from_slice` may want for memory, and this may not: there is room.
fn copy_all(into: &mut Vec<Record>, records: &[Record])
    requires { vec_len into.old + length records.now ≤ vec_capacity into.old }
    ensures items { into.new.items ≡ into.old.items ++ records.now }
    ensures len { vec_len into.new ≡ vec_len into.old + length records.now }
    ensures capacity { vec_capacity into.new ≡ vec_capacity into.old }
{
    for record in records {
        into.push_reserved(*record);
    }
}

fn judge(first: u32, index: u32, records: &[Record]) -> Result<(), Fault>
    ensures answer { result_err result ≡ first_cause (restore_tests first index records.now) }
{
    if records.len() > 1023 {
        return Err(Fault::at(0, Damage::Length));
    }
    try_index(index).map_err(|refusal| Fault::at(0, refusal))?;
    judge_chain(first, index, records)
}

fn judge_chain(first: u32, index: u32, records: &[Record]) -> Result<(), Fault>
    ensures answer { result_err result ≡ first_cause (chain_tests (rows first records.now) index (length records.now) (length records.now) 0) }
{
    let mut walk = Walk::new(first, records);
    let mut before = 0;
    while let Some((number, record)) = walk.next() {
        judge_record(index, before, number, record)?;
        before = record.modulus;
    }
    if walk.next != 0 {
        return Err(Fault::at(walk.next, Damage::Chain));
    }
    if walk.left != 0 {
        return Err(Fault::at(walk.at, Damage::Chain));
    }
    Ok(())
}

fn judge_record(index: u32, before: u32, number: u32, record: Record) -> Result<(), Fault>
    ensures answer { result_err result ≡ first_cause (record_tests index before number «record») }
{
    if record.modulus <= before {
        return Err(Fault::at(number, Damage::Chain));
    }
    if record.residue.is_some() {
        return Err(Fault::at(number, Damage::Residue));
    }
    try_pair(index, record.modulus, record.generator).map_err(|refusal| Fault::at(number, refusal))
}
