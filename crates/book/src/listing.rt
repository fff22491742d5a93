// A listing: pairs are entered into it, and every record waits.
mod calls;

ghost use Rattle.std.specs.Prelude.{◌≡◌, true};
ghost use Rattle.table.specs.Chain.{every};
ghost use Rattle.table.specs.Fitness.{record_waits};
ghost use Rattle.table.specs.Tables.{contents};

use table::RecordTable;

#[derive(Drop)]
pub struct Listing {
    table: RecordTable,
    ghost waiting: { every record_waits (contents table).records ≡ true },
}
