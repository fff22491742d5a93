// The calls of a session on its book.
ghost use Rattle.std.specs.Prelude.{◌<◌, vec_len, vec_capacity};
ghost use Rattle.session.specs.Events.{Open, Fill, FillWith, Show};
ghost use Rattle.session.specs.Sessions.{outcome_of};
ghost use Rattle.session.specs.Turns.{Turn, answer_of};

use crate::answer::{Answer, Outcome};
use crate::slot::{Slot, take};
use crate::state::State;
use arithmetic::Refusal;
use run::FinishedResidue;
use theory::Kind;

impl State {
    pub(crate) fn open_run(&mut self, kind: Kind, modulus: u32) -> Result<Answer, Refusal>
        requires room { vec_len self.old.runs < vec_capacity self.old.runs }
        ensures turn { Turn self.old self.new (Open kind modulus) (answer_of result) }
    {
        let opened = self.book.open(kind, modulus)?;
        let run = self.runs.len();
        self.runs.push_reserved(Slot::Open(opened));
        Ok(Answer::Opened { run })
    }

    // Fills in what a run gave. A refused residue stays with its run.
    pub(crate) fn fill(&mut self, number: usize) -> Result<Answer, Refusal>
        ensures turn { Turn self.old self.new (Fill number) (answer_of result) }
    {
        let Some(finished) = take::<FinishedResidue>(&mut self.runs, number) else {
            return Ok(Answer::NotMade);
        };
        let filled = Outcome::from(&finished);
        match self.book.fill(finished) {
            Ok(()) => Ok(Answer::Filled(filled)),
            Err((refusal, finished)) => {
                self.runs[number] = Slot::Finished(finished);
                Err(refusal)
            }
        }
    }

    // Fills in a residue from elsewhere. A refused one is let go.
    pub(crate) fn fill_with(&mut self, finished: FinishedResidue) -> Result<Answer, Refusal>
        ensures turn { Turn self.old self.new (FillWith (outcome_of finished)) (answer_of result) }
    {
        let filled = Outcome::from(&finished);
        match self.book.fill(finished) {
            Ok(()) => Ok(Answer::Filled(filled)),
            Err((refusal, _)) => Err(refusal),
        }
    }

    pub(crate) fn show(&self, modulus: u32) -> Result<Answer, Refusal>
        ensures turn { Turn self.now self.now (Show modulus) (answer_of result) }
    {
        Ok(Answer::Shown(self.book.show(modulus)?))
    }
}
