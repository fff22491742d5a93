// Writing a table: its head, then its records, sixteen bytes each.
ghost use Rattle.std.specs.Prelude.{◌≡◌, ◌*◌, ◌≤◌, ◌++◌, length, drop};
ghost use Rattle.std.specs.List.{flat_map};
ghost use Rattle.line.specs.Output.{PutOut};
ghost use Rattle.table.specs.Tables.{contents};
ghost use Rattle.file.specs.Layout.{record_bytes, encode};

use crate::row::Row;
use arithmetic::Refusal;
use table::{Record, RecordTable};

pub fn write(table: &RecordTable, output: &mut [u8]) -> Result<usize, Refusal>
    ensures puts { PutOut (encode (contents table.now)) output.old output.new result }
{
    let records = table.records();
    let count = records.len();
    if output.len() < 16 * (count + 1) {
        return Err(Refusal::OutputShort);
    }
    let head = Row {
        next: table.first(),
        modulus: table.index(),
        generator: count as u32,
        residue: 0,
    };
    let (first, others) = output.split_at_mut(16);
    first.copy_from_slice(&head.to_bytes());
    put_records(others, records);
    Ok(16 * (count + 1))
}

// By index: after `chunks_exact_mut` a proof does not know what the output holds.
fn put_records(output: &mut [u8], records: &[Record])
    requires { 16 * length records.now ≤ length output.old }
    ensures after { output.new ≡ flat_map record_bytes records.now ++ drop (16 * length records.now) output.old }
{
    for (i, record) in records.iter().enumerate() {
        let at = 16 * i;
        output[at..at + 16].copy_from_slice(&Row::from(*record).to_bytes());
    }
}
