// Finishing a run.
ghost use Rattle.std.specs.Prelude.{◌≡◌};
ghost use Rattle.run.specs.Calls.{left_of};
ghost use Rattle.run.specs.Finishing.{Finished};
ghost use Rattle.run.specs.Places.{kind_of};
ghost use Rattle.theory.specs.Kinds.{run_result};

use crate::finished::FinishedResidue;
use crate::result::{direct_result, doubling_result};
use crate::state::Run;
use arithmetic::{Arithmetic, Refusal};
use theory::Kind;

impl Run {
    // The result of a run whose terms are all taken.
    fn result<W: Arithmetic>(&self, arithmetic: &W) -> u32
        requires same { W.modulus arithmetic.now ≡ self.now.modulus }
        requires whole { left_of self.now ≡ 0 }
        ensures value { result ≡ run_result (kind_of self.now.progress) self.now.modulus self.now.generator self.now.index }
    {
        match self.kind() {
            Kind::Direct => direct_result(arithmetic, self.index, self.generator, self.sum),
            Kind::Doubling => doubling_result(arithmetic, self.index, self.sum),
        }
    }

    // Uses up a run whose terms are all taken; a refused run is handed back.
    pub fn finish<W: Arithmetic>(self, arithmetic: &W) -> Result<FinishedResidue, (Refusal, Run)>
        ensures finished { Finished self (W.modulus arithmetic.now) result }
    {
        if let Err(refusal) = self.try_arithmetic(arithmetic) {
            return Err((refusal, self));
        }
        if self.left() > 0 {
            return Err((Refusal::TermsLeft, self));
        }
        Ok(FinishedResidue {
            kind: self.kind(),
            index: self.index,
            modulus: self.modulus,
            generator: self.generator,
            residue: self.result(arithmetic),
        })
    }
}
