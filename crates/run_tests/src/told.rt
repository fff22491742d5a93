// What the tests ask of a run, of a finished residue and of a refusal.
use arithmetic::{Arithmetic, Refusal};
use run::{FinishedResidue, Run};
use std::test::Fail;

// The number of the refusal, if there was one.
pub(crate) fn refused<T: Drop>(answer: Result<T, Refusal>) -> Option<u8> {
    answer.err().map(|refusal| refusal.number())
}

// Terms taken, terms left and partial sum.
pub(crate) fn standing(run: &Run) -> [u32; 3] {
    [run.taken(), run.left(), run.partial_sum()]
}

pub(crate) fn finished<W: Arithmetic>(run: Run, w: &W) -> Result<FinishedResidue, Fail> {
    run.finish(w).map_err(|(refusal, _)| {
        let number = refusal.number();
        Fail::new(format_args!("finishing was refused by {number}"))
    })
}

// The run that a refused finish hands back, with the number of the refusal.
pub(crate) fn handed_back<W: Arithmetic>(run: Run, w: &W) -> Result<(u8, Run), Fail> {
    match run.finish(w) {
        Ok(_) => Err(Fail::new("finished")),
        Err((refusal, run)) => Ok((refusal.number(), run)),
    }
}
