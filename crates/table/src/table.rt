// The table itself, with the facts that every table keeps.
mod chain;
mod entering;
mod filling;
mod restoring;
mod telling;
mod walk;

ghost use Rattle.std.specs.Prelude.{◌≡◌, ◌≤◌, true, vec_len, vec_capacity};
ghost use Rattle.table.specs.Chain.{chained, every};
ghost use Rattle.arithmetic.specs.Causes.{index_stands};
ghost use Rattle.table.specs.Fitness.{record_fits};

use crate::pair::Record;

// Record numbers start at 1, in order of entering; `first` is the first of the chain, 0 where there is none. The memory
// of a full table is reserved when it is made, so that entering cannot want for it. So the chain is links by number, as
// a file tells them, and no map: that would allocate at each entry.
#[derive(Drop)]
pub struct RecordTable {
    first: u32,
    index: u32,
    records: Vec<Record>,
    ghost room: { 1023 ≤ vec_capacity records },
    ghost few: { vec_len records ≤ 1023 },
    ghost stands: { index_stands index ≡ true },
    ghost rising: { chained first records.items ≡ true },
    ghost fits: { every (record_fits index) records.items ≡ true },
}
