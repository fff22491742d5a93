// What a call of a session is answered.
ghost use Rattle.std.specs.Prelude.{◌≡◌};
ghost use Rattle.session.specs.Sessions.{outcome_of};

use arithmetic::Refusal;
use run::FinishedResidue;
use theory::Kind;

// What a finished residue tells.
#[derive(Clone, Copy, PartialEq, Eq, Debug)]
pub struct Outcome {
    pub kind: Kind,
    pub index: u32,
    pub modulus: u32,
    pub generator: u32,
    pub residue: u32,
}

impl From<&FinishedResidue> for Outcome {
    ghost from_gives = { λ finished outcome. outcome ≡ outcome_of finished.now };

    fn from(finished: &FinishedResidue) -> Outcome {
        Outcome {
            kind: finished.kind(),
            index: finished.index(),
            modulus: finished.modulus(),
            generator: finished.generator(),
            residue: finished.residue(),
        }
    }
}

// One list of cases, a refusal and a call that is not made among them: the law speaks of calls with their answers, and a
// result inside a result would be no plainer.
#[derive(Clone, Copy, PartialEq, Eq, Debug)]
pub enum Answer {
    // the listing is begun, or the pair entered
    Done,
    // the number of the run that was opened
    Opened { run: usize },
    // the terms that were taken
    Share { terms: u32 },
    Finished(Outcome),
    Told { taken: u32, left: u32, sum: u32 },
    // the residue that was filled in
    Filled(Outcome),
    // the residue of the record shown, none while it waits
    Shown(Option<u32>),
    Refused(Refusal),
    // the call names no run that is open, or no finished residue that is left to fill in
    NotMade,
}
