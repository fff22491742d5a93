// What is printed of an answer.
use session::{Answer, Outcome};
use std::fmt;

// What became of a finished residue.
#[derive(Clone, Copy)]
struct Became<'a>(&'a str, &'a Outcome);

impl fmt::Display for Became<'_> {
    fn fmt<W: fmt::Write>(&self, f: &mut fmt::Formatter<W>) -> fmt::Result {
        let Became(done, outcome) = self;
        let Outcome {
            kind,
            index,
            modulus,
            generator,
            residue,
        } = outcome;
        write!(
            f,
            "{done} residue {residue} of index {index} for ({modulus}, {generator}), {kind}"
        )
    }
}

// An answer, as it is printed behind its call.
#[derive(Clone, Copy)]
pub(crate) struct Shown<'a>(pub(crate) &'a Answer);

impl fmt::Display for Shown<'_> {
    fn fmt<W: fmt::Write>(&self, f: &mut fmt::Formatter<W>) -> fmt::Result {
        match self.0 {
            Answer::Done => f.write_str("done"),
            Answer::Opened { run } => write!(f, "run {run}"),
            Answer::Share { terms } => write!(f, "{terms} taken"),
            Answer::Finished(outcome) => Became("finished with", outcome).fmt(f),
            Answer::Told { taken, left, sum } => {
                write!(f, "{taken} taken, {left} left, partial sum {sum}")
            }
            Answer::Filled(outcome) => Became("filled in", outcome).fmt(f),
            Answer::Shown(None) => f.write_str("waits"),
            Answer::Shown(Some(residue)) => write!(f, "{residue}"),
            Answer::Refused(refusal) => {
                let number = refusal.number();
                write!(f, "refused by {number}, {refusal}")
            }
            Answer::NotMade => f.write_str("not made"),
        }
    }
}
