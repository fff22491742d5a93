// What a run tells of itself.
ghost use Rattle.std.specs.Prelude.{◌≡◌, ◌+◌};
ghost use Rattle.run.specs.Calls.{left_of};
ghost use Rattle.run.specs.Places.{kind_of};
ghost use Rattle.theory.specs.Direct.{terms_of};
ghost use Rattle.theory.specs.Kinds.{partial_sum};

use crate::progress::Progress;
use crate::state::Run;
use theory::Kind;

impl Run {
    pub fn kind(&self) -> Kind
        ensures value { result ≡ kind_of self.now.progress }
    {
        match self.progress {
            Progress::Direct(_) => Kind::Direct,
            Progress::Doubling(_) => Kind::Doubling,
        }
    }

    pub fn index(&self) -> u32
        ensures value { result ≡ self.now.index }
    {
        self.index
    }

    pub fn modulus(&self) -> u32
        ensures value { result ≡ self.now.modulus }
    {
        self.modulus
    }

    pub fn generator(&self) -> u32
        ensures value { result ≡ self.now.generator }
    {
        self.generator
    }

    // How many terms are taken.
    pub fn taken(&self) -> u32
        ensures value { result ≡ self.now.taken }
    {
        self.taken
    }

    // How many terms are left: with those taken they are (p − 1)/2.
    pub fn left(&self) -> u32
        ensures value { result ≡ left_of self.now }
        ensures whole { self.now.taken + result ≡ terms_of self.now.modulus }
    {
        (self.modulus - 1) / 2 - self.taken
    }

    // The sum of the terms taken.
    pub fn partial_sum(&self) -> u32
        ensures value { result ≡ partial_sum (kind_of self.now.progress) self.now.modulus self.now.generator self.now.index self.now.taken }
    {
        self.sum
    }
}
