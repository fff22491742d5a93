// Telling and finishing a run of a session.
ghost use Rattle.session.specs.Events.{Finish, Tell};
ghost use Rattle.session.specs.Turns.{Turn, answer_of};

use crate::answer::{Answer, Outcome};
use crate::slot::{Slot, take};
use crate::state::State;
use arithmetic::{Arithmetic, Refusal};
use run::Run;

impl State {
    pub(crate) fn tell(&self, number: usize) -> Answer
        ensures turn { Turn self.now self.now (Tell number) result }
    {
        if number >= self.runs.len() {
            return Answer::NotMade;
        }
        let Slot::Open(run) = &self.runs[number] else {
            return Answer::NotMade;
        };
        Answer::Told {
            taken: run.taken(),
            left: run.left(),
            sum: run.partial_sum(),
        }
    }

    // A run that cannot be finished stays as it is.
    pub(crate) fn finish<W: Arithmetic>(
        &mut self,
        number: usize,
        arithmetic: &W,
    ) -> Result<Answer, Refusal>
        ensures turn { Turn self.old self.new (Finish number (W.modulus arithmetic.now)) (answer_of result) }
    {
        let Some(run) = take::<Run>(&mut self.runs, number) else {
            return Ok(Answer::NotMade);
        };
        match run.finish(arithmetic) {
            Ok(finished) => {
                let outcome = Outcome::from(&finished);
                self.runs[number] = Slot::Finished(finished);
                Ok(Answer::Finished(outcome))
            }
            Err((refusal, run)) => {
                self.runs[number] = Slot::Open(run);
                Err(refusal)
            }
        }
    }
}
