// The calls of a session on its book and its runs.
ghost use Rattle.std.specs.Prelude.{◌≡◌, ◌+◌, ◌<◌, ◌≤◌, map, vec_len, vec_capacity};
ghost use Rattle.book.specs.Books.{book};
ghost use Rattle.session.specs.Deeds.{book_deed};
ghost use Rattle.session.specs.Events.{CountOn};
ghost use Rattle.session.specs.Sessions.{Went};
ghost use Rattle.session.specs.Turns.{Turn, answer_of};

use crate::answer::Answer;
use crate::call::BookCall;
use crate::state::State;
use arithmetic::{Arithmetic, Refusal};
use digits::DigitSource;

impl State {
    // Counts on with what the call brings.
    fn count_with<W: Arithmetic, D: DigitSource + Drop>(
        &mut self,
        number: usize,
        arithmetic: &W,
        mut source: D,
        mut cells: Vec<u64>,
        terms: u32,
    ) -> Result<Answer, Refusal>
        ensures turn { Turn self.old self.new (CountOn number (vec_len cells) (W.modulus arithmetic.now) (D.DigitSource.modulus source) terms) (answer_of result) }
    {
        self.count_on(number, arithmetic, &mut source, cells.as_mut_slice(), terms)
    }

    // Makes one call.
    fn make<W: Arithmetic + Drop, D: DigitSource + Drop>(
        &mut self,
        call: BookCall<W, D>,
    ) -> Result<Answer, Refusal>
        requires room { vec_len self.old.runs < vec_capacity self.old.runs }
        ensures turn { Turn self.old self.new (book_deed W.modulus D.DigitSource.modulus call) (answer_of result) }
    {
        match call {
            BookCall::Open { kind, modulus } => self.open_run(kind, modulus),
            BookCall::CarryOn {
                run,
                arithmetic,
                terms,
            } => self.carry_on(run, &arithmetic, terms),
            BookCall::CountOn {
                run,
                arithmetic,
                source,
                cells,
                terms,
            } => self.count_with(run, &arithmetic, source, cells, terms),
            BookCall::Finish { run, arithmetic } => self.finish(run, &arithmetic),
            BookCall::Tell { run } => Ok(self.tell(run)),
            BookCall::Fill { run } => self.fill(run),
            BookCall::FillWith { finished } => self.fill_with(finished),
            BookCall::Show { modulus } => self.show(modulus),
        }
    }
}

// Makes the calls in their order, and puts their answers behind those that are there.
pub(crate) fn make_book_calls<W: Arithmetic + Drop, D: DigitSource + Drop>(
    state: &mut State,
    calls: Vec<BookCall<W, D>>,
    answers: &mut Vec<Answer>,
)
    requires runs { vec_len state.old.runs + vec_len calls ≤ vec_capacity state.old.runs }
    requires room { vec_len answers.old + vec_len calls ≤ vec_capacity answers.old }
    ensures went { Went (book state.old.book) state.old.runs.items (book state.new.book) state.new.runs.items (map (book_deed W.modulus D.DigitSource.modulus) calls.items) answers.old.items answers.new.items }
{
    for call in calls {
        answers.push_reserved(state.make(call).unwrap_or_else(Answer::Refused));
    }
}
