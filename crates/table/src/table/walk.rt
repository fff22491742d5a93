// Going along the links of records, which need not be a whole chain.
ghost use Rattle.std.specs.Prelude.{◌≡◌, ◌+◌, ◌⊎◌, length, Some, None, MatchOption};
ghost use Rattle.std.specs.Iterator.{YieldsFirst, MakesProgress, item_count};
ghost use Rattle.table.specs.Chain.{numbered};
ghost use Rattle.table.specs.Walk.{met};

use crate::pair::Record;

// Stands at a record, or before the first at 0, and goes on to the one that it links to. It ends where that is 0 or no
// record's number, and when it has met as many as there are.
#[derive(Drop)]
pub(super) struct Walk<'a> {
    records: &'a [Record],
    pub(super) at: u32,
    pub(super) next: u32,
    pub(super) left: usize,
}

impl<'a> Walk<'a> {
    pub(super) fn new(first: u32, records: &'a [Record]) -> Walk<'a>
        ensures records { result.records.now ≡ records.now }
        ensures at { result.at ≡ 0 }
        ensures next { result.next ≡ first }
        ensures left { result.left ≡ length records.now }
    {
        Walk {
            records,
            at: 0,
            next: first,
            left: records.len(),
        }
    }
}

// The records that the walk meets, each with its number.
impl<'a> Iterator for Walk<'a> {
    type Item = (u32, Record);

    ghost next_gives = { YieldsFirst (λ walk. met walk.records.now walk.left walk.next) };

    ghost remaining = { item_count (λ walk. met walk.records.now walk.left walk.next) };

    #[tactic(auto, using(crate::proofs::Walks::met_none, crate::proofs::Walks::met_over, crate::proofs::Walks::met_on))]
    fn next(&mut self) -> Option<(u32, Record)>
        ensures steps { YieldsFirst (λ walk. met walk.records.now walk.left walk.next) self.old result self.new }
        ensures goes { MakesProgress (λ _. Unit {0}) (item_count (λ walk. met walk.records.now walk.left walk.next)) self.old result self.new }
        ensures ends { MatchOption result ((self.new ≡ self.old) × ((self.old.left ≡ 0) ⊎ (numbered self.old.records.now self.old.next ≡ None))) (λ x. (x.0 ≡ self.old.next) × (numbered self.old.records.now self.old.next ≡ Some x.1) × (self.new.records.now ≡ self.old.records.now) × (self.new.at ≡ x.0) × (self.new.next ≡ x.1.next) × (self.new.left + 1 ≡ self.old.left)) }
    {
        let number = self.next;
        let record = numbered(self.records, number)?;
        self.left = self.left.checked_sub(1)?;
        self.at = number;
        self.next = record.next;
        Some((number, record))
    }
}

// The record of that number, where there is one.
pub(super) fn numbered(records: &[Record], number: u32) -> Option<Record>
    ensures value { result ≡ numbered records.now number }
{
    // the number is compared, and not its place: along the links, the next load then waits for one step less
    if number as usize > records.len() {
        return None;
    }
    let place = (number as usize).checked_sub(1)?;
    Some(records[place])
}
