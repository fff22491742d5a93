// The chain of a table: its records in rising order of modulus. The head counts as record 0: what comes after it is the
// first record.
ghost use Rattle.std.specs.Prelude.{◌≡◌, ◌≤◌, true, length, vec_items, vec_len, vec_capacity, slice_set};
ghost use Rattle.std.specs.List.{slice_get};
ghost use Rattle.table.specs.Chain.{chained, rows, row, next_in, modulus_in, pairs_along, place, relinked};

use super::RecordTable;
use super::walk::{Walk, numbered};
use crate::pair::{Pair, Record};

// The number of the first record, and the records, each with the number of the one after it.
#[derive(Clone, Copy)]
pub(super) struct Chain<'a> {
    first: u32,
    records: &'a [Record],
    ghost rising: { chained first records.now ≡ true },
}

impl RecordTable {
    pub(super) fn chain(&self) -> Chain<'_>
        ensures first { result.first ≡ self.now.first }
        ensures records { result.records.now ≡ vec_items self.now.records }
    {
        Chain {
            first: self.first,
            records: self.records.as_slice(),
        }
    }
}

impl<'a> Chain<'a> {
    fn walk(&self) -> Walk<'a>
        ensures records { result.records.now ≡ self.now.records.now }
        ensures next { result.next ≡ self.now.first }
        ensures left { result.left ≡ length self.now.records.now }
    {
        Walk::new(self.first, self.records)
    }

    // The record after the one numbered `at`, 0 at the chain's end.
    pub(super) fn after(&self, at: u32) -> u32
        requires { at ≤ length self.now.records.now }
        ensures value { result ≡ next_in (rows self.now.first self.now.records.now) at }
    {
        numbered(self.records, at).map_or(self.first, |record| record.next)
    }

    // The record after which a pair of the modulus comes.
    pub(super) fn place_of(&self, modulus: u32) -> u32
        ensures value { result ≡ place (next_in (rows self.now.first self.now.records.now)) (modulus_in (rows self.now.first self.now.records.now)) modulus (length self.now.records.now) 0 }
    {
        self.walk()
            .take_while(|(_, record)| record.modulus < modulus)
            .last()
            .map_or(0, |(number, _)| number)
    }

    // The pair at that position, counted from 0.
    pub(super) fn pair_at(&self, position: usize) -> Option<Pair>
        ensures value { result ≡ slice_get (pairs_along self.now.first self.now.records.now) position }
    {
        // without this, a position past the last would go along the whole chain
        if position >= self.records.len() {
            return None;
        }
        let (_, record) = self.walk().nth(position)?;
        Some(Pair::from(record))
    }
}

// Has the chain go on from the record `at` to the record `next`. It takes the two fields, and is no method: until the
// record is entered the chain is broken.
pub(super) fn relink(first: &mut u32, records: &mut Vec<Record>, at: u32, next: u32)
    requires { at ≤ vec_len records.old }
    ensures linked { rows first.new records.new.items ≡ slice_set (rows first.old records.old.items) at (relinked (row (rows first.old records.old.items) at) next) }
    ensures len { vec_len records.new ≡ vec_len records.old }
    ensures capacity { vec_capacity records.new ≡ vec_capacity records.old }
{
    if at == 0 {
        *first = next;
    } else {
        records[at as usize - 1].next = next;
    }
}
