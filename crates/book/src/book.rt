// A book: a released listing. It takes runs and residues, and no further modulus.
mod calls;
mod records;

ghost use Rattle.std.specs.Prelude.{◌≡◌, true};
ghost use Rattle.table.specs.Chain.{every};
ghost use Rattle.table.specs.Tables.{contents};
ghost use Rattle.book.specs.Worked.{record_worked};

use table::RecordTable;

// Every residue in it is the result of a whole run of its index and of its record's pair.
#[derive(Drop)]
pub struct Book {
    pub(crate) table: RecordTable,
    ghost worked: { every (record_worked (contents table).index) (contents table).records ≡ true },
}
