// What a finished residue tells of itself.
ghost use Rattle.std.specs.Prelude.{◌≡◌};
ghost use Rattle.theory.specs.Bernoulli.{BernoulliMod};
ghost use Rattle.theory.specs.Kinds.{run_result};
ghost use Rattle.theory.specs.Pairs.{Sound};

use crate::finished::FinishedResidue;
use theory::Kind;

impl FinishedResidue {
    // The kind of the run that gave it.
    pub fn kind(&self) -> Kind
        ensures value { result ≡ self.now.kind }
    {
        self.kind
    }

    pub fn index(&self) -> u32
        ensures value { result ≡ self.now.index }
    {
        self.index
    }

    pub fn modulus(&self) -> u32
        ensures value { result ≡ self.now.modulus }
    {
        self.modulus
    }

    pub fn generator(&self) -> u32
        ensures value { result ≡ self.now.generator }
    {
        self.generator
    }

    // The result of the whole run, and B_k modulo p where the pair is sound.
    pub fn residue(&self) -> u32
        ensures value { result ≡ self.now.residue }
        ensures result { result ≡ run_result self.now.kind self.now.modulus self.now.generator self.now.index }
        ensures bernoulli { Sound self.now.modulus self.now.generator → BernoulliMod self.now.modulus self.now.index result }
    {
        self.residue
    }
}
