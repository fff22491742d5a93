// Giving a record its residue.
ghost use Rattle.std.specs.Prelude.{◌≡◌, if◌then◌else◌};
ghost use Rattle.table.specs.Chain.{numbered};
ghost use Rattle.table.specs.Filling.{fillable, filled};
ghost use Rattle.table.specs.Tables.{contents};

use super::RecordTable;

impl RecordTable {
    // Gives the record of that number its residue, where it waits and the residue is below its modulus. Tells whether it
    // did: where not, nothing is changed. No error, since a caller that has looked the record up has none to tell.
    #[tactic(auto, using(crate::proofs::Records::numbered_some, crate::proofs::Records::every_at, crate::proofs::Fills::filled_chain, crate::proofs::Fills::filled_every, crate::proofs::Fills::filled_fits))]
    pub fn fill(&mut self, number: u32, residue: u32) -> bool
        ensures answer { result ≡ fillable (numbered (contents self.old).records number) residue }
        ensures after { contents self.new ≡ (if result then filled (contents self.old) number residue else contents self.old) }
    {
        let Some(record) = self.record(number) else {
            return false;
        };
        if record.residue.is_some() || residue >= record.modulus {
            return false;
        }
        self.records[number as usize - 1].residue = Some(residue);
        true
    }
}
