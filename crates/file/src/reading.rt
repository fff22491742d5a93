// Reading a table from any bytes: the head is judged first, then the records along their chain.
ghost use Rattle.std.specs.Prelude.{◌≡◌, ◌≤◌, map, length, is_ok, if◌then◌else◌};
ghost use Rattle.std.specs.Result.{result_err};
ghost use Rattle.arithmetic.specs.Causes.{first_cause};
ghost use Rattle.table.specs.Faults.{restore_tests};
ghost use Rattle.table.specs.Tables.{contents, empty, holding};
ghost use Rattle.file.specs.Reading.{decode, read_tests};
ghost use Rattle.file.specs.Rows.{record_of, rows_of};

use crate::row::{Row, Rows};
use arrayvec::ArrayVec;
use table::{Damage, Fault, Record, RecordTable};

// The table in the bytes. Where they have a fault, the table is empty then, with index 2.
pub fn read(table: &mut RecordTable, bytes: &[u8]) -> Result<(), Fault>
    ensures answer { result_err result ≡ first_cause (read_tests bytes.now) }
    ensures after { contents table.new ≡ (if is_ok result then decode bytes.now else empty 2) }
{
    table.reset();
    if bytes.len() % 16 != 0 || bytes.len() > 16384 {
        return Err(Fault::at(0, Damage::Length));
    }
    let mut rows = Rows(bytes);
    let Some(head) = rows.next() else {
        return Err(Fault::at(0, Damage::Length));
    };
    let count = bytes.len() / 16 - 1;
    if head.generator as usize != count || head.residue != 0 {
        return Err(Fault::at(0, Damage::Head));
    }
    hold(table, head, rows)
}

// The head tells the first of the chain and the index.
fn hold(table: &mut RecordTable, head: Row, rows: Rows) -> Result<(), Fault>
    requires few { length (rows_of rows.0.now) ≤ 1023 }
    ensures answer { result_err result ≡ first_cause (restore_tests head.next head.modulus (map record_of (rows_of rows.entry.0.now))) }
    ensures after { contents table.new ≡ (if is_ok result then holding head.next head.modulus (map record_of (rows_of rows.entry.0.now)) else empty 2) }
{
    let mut records = ArrayVec::<Record, 1023>::new();
    for row in rows {
        records.push(Record::from(row));
    }
    table.restore(head.next, head.modulus, records.as_slice())
}
