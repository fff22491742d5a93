// What a table is made of.
ghost use Rattle.std.specs.Prelude.{◌≡◌};

// A modulus and the generator listed with it.
#[derive(Clone, Copy, PartialEq, Eq, Hash, Debug)]
pub struct Pair {
    pub modulus: u32,
    pub generator: u32,
}

// A listed pair with the number of the record after it in the chain, 0 at the chain's end, and its residue, none while
// the record waits for it.
#[derive(Clone, Copy, Default, PartialEq, Eq, Hash, Debug)]
pub struct Record {
    pub next: u32,
    pub modulus: u32,
    pub generator: u32,
    pub residue: Option<u32>,
}

// The pair of a record.
impl From<Record> for Pair {
    ghost from_gives = { λ r pair. pair ≡ record { modulus = r.modulus; generator = r.generator } };

    fn from(record: Record) -> Pair {
        Pair {
            modulus: record.modulus,
            generator: record.generator,
        }
    }
}
