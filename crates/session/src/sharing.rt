// Taking terms of a run of a session.
ghost use Rattle.std.specs.Prelude.{length};
ghost use Rattle.session.specs.Events.{CarryOn, CountOn};
ghost use Rattle.session.specs.Turns.{Turn, answer_of};

use crate::answer::Answer;
use crate::slot::Slot;
use crate::state::State;
use arithmetic::{Arithmetic, Refusal};
use digits::DigitSource;

// By the number, here and where a run is told of: after `get_mut` no name of the source says what the runs hold then.
impl State {
    pub(crate) fn carry_on<W: Arithmetic>(
        &mut self,
        number: usize,
        arithmetic: &W,
        terms: u32,
    ) -> Result<Answer, Refusal>
        ensures turn { Turn self.old self.new (CarryOn number (W.modulus arithmetic.now) terms) (answer_of result) }
    {
        if number >= self.runs.len() {
            return Ok(Answer::NotMade);
        }
        let Slot::Open(run) = &mut self.runs[number] else {
            return Ok(Answer::NotMade);
        };
        let terms = run.carry_on(arithmetic, terms)?;
        Ok(Answer::Share { terms })
    }

    pub(crate) fn count_on<W: Arithmetic, D: DigitSource>(
        &mut self,
        number: usize,
        arithmetic: &W,
        source: &mut D,
        cells: &mut [u64],
        terms: u32,
    ) -> Result<Answer, Refusal>
        ensures turn { Turn self.old self.new (CountOn number (length cells.old) (W.modulus arithmetic.now) (D.DigitSource.modulus source.old) terms) (answer_of result) }
    {
        if number >= self.runs.len() {
            return Ok(Answer::NotMade);
        }
        let Slot::Open(run) = &mut self.runs[number] else {
            return Ok(Answer::NotMade);
        };
        let terms = run.count_on(arithmetic, source, cells, terms)?;
        Ok(Answer::Share { terms })
    }
}
