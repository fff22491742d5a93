// The rows of a file, sixteen bytes each.
ghost use Rattle.std.specs.Prelude.{◌≡◌};
ghost use Rattle.std.specs.Iterator.{YieldsFirst, item_count};
ghost use Rattle.file.specs.Layout.{row_bytes, residue_word};
ghost use Rattle.file.specs.Reading.{residue_of};
ghost use Rattle.file.specs.Rows.{record_of, rows_of};

use table::Record;

// What stands for the residue of a record that waits.
const EMPTY_MARK: u32 = 4294967295;

// Four words: those of a record, or of the head, which has the shape of one.
#[derive(Clone, Copy)]
pub(crate) struct Row {
    pub(crate) next: u32,
    pub(crate) modulus: u32,
    pub(crate) generator: u32,
    pub(crate) residue: u32,
}

impl Row {
    #[tactic(auto, unfolding(crate::specs::Layout::row_bytes, crate::specs::Layout::word_bytes))]
    pub(crate) fn to_bytes(self) -> [u8; 16]
        ensures value { result ≡ row_bytes self.next self.modulus self.generator self.residue }
    {
        let [n0, n1, n2, n3] = self.next.to_le_bytes();
        let [m0, m1, m2, m3] = self.modulus.to_le_bytes();
        let [g0, g1, g2, g3] = self.generator.to_le_bytes();
        let [r0, r1, r2, r3] = self.residue.to_le_bytes();
        [
            n0, n1, n2, n3, m0, m1, m2, m3, g0, g1, g2, g3, r0, r1, r2, r3,
        ]
    }
}

impl From<Record> for Row {
    ghost from_gives = { λ r row. row ≡ record { next = r.next; modulus = r.modulus; generator = r.generator; residue = residue_word r.residue } };

    fn from(record: Record) -> Row {
        Row {
            next: record.next,
            modulus: record.modulus,
            generator: record.generator,
            residue: word_of(record.residue),
        }
    }
}

impl From<Row> for Record {
    ghost from_gives = { λ row r. r ≡ record_of row };

    fn from(row: Row) -> Record {
        Record {
            next: row.next,
            modulus: row.modulus,
            generator: row.generator,
            residue: residue_of(row.residue),
        }
    }
}

fn word_of(residue: Option<u32>) -> u32
    ensures value { result ≡ residue_word residue }
{
    residue.unwrap_or(EMPTY_MARK)
}

fn residue_of(word: u32) -> Option<u32>
    ensures value { result ≡ residue_of word }
{
    if word == EMPTY_MARK { None } else { Some(word) }
}

// The rows of these bytes, from the front; they end where fewer than sixteen are left.
#[derive(Drop)]
pub(crate) struct Rows<'a>(pub(crate) &'a [u8]);

impl<'a> Iterator for Rows<'a> {
    type Item = Row;

    ghost next_gives = { YieldsFirst (λ rows. rows_of rows.0.now) };

    ghost remaining = { item_count (λ rows. rows_of rows.0.now) };

    #[tactic(auto, using(crate::proofs::Rowing::rows_none))]
    fn next(&mut self) -> Option<Row> {
        let [
            n0,
            n1,
            n2,
            n3,
            m0,
            m1,
            m2,
            m3,
            g0,
            g1,
            g2,
            g3,
            r0,
            r1,
            r2,
            r3,
            rest @ ..,
        ] = self.0
        else {
            return None;
        };
        let next = u32::from_le_bytes([*n0, *n1, *n2, *n3]);
        let modulus = u32::from_le_bytes([*m0, *m1, *m2, *m3]);
        let generator = u32::from_le_bytes([*g0, *g1, *g2, *g3]);
        let residue = u32::from_le_bytes([*r0, *r1, *r2, *r3]);
        self.0 = rest;
        Some(Row {
            next,
            modulus,
            generator,
            residue,
        })
    }
}
