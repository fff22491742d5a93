// The work on the records of a book, and the line of a book that is refused.
ghost use Rattle.std.specs.Prelude.{◌≡◌};
ghost use Rattle.book.specs.Books.{book as held, Opened};
ghost use Rattle.work.specs.Lines.{kind_for, waiting_at, WorkedAt, Stays, fault_line};

use crate::whole::work_run;
use arithmetic::Refusal;
use book::{Book, Fault};
use line::Line;
use run::{FinishedResidue, Run};
use theory::Kind;

// Works the record at that position of the chain, counted from 0, and gives its line. A record that has its residue stays
// as it is and gives none, as does a position past the last.
pub fn work_record(book: &mut Book, position: usize) -> Option<Line>
    ensures worked { WorkedAt (held book.old) (held book.new) (waiting_at (held book.old) position) result }
    ensures stays { Stays (held book.old) (held book.new) position }
{
    let pair = book.pair(position)?;
    let Ok(run) = open_run(book, pair.modulus) else {
        return None;
    };
    let finished = work_run(run);
    let line = residue_line(&finished);
    book.fill(finished).unwrap();
    Some(line)
}

// A doubling run where one can be opened, else a direct one.
fn open_run(book: &Book, modulus: u32) -> Result<Run, Refusal>
    ensures opened { Opened (held book.now) (kind_for modulus (held book.now).index) modulus result }
{
    match book.open(Kind::Doubling, modulus) {
        Err(Refusal::NotUsable) => book.open(Kind::Direct, modulus),
        opened => opened,
    }
}

// No `From`: a line, a finished residue and a fault are each of a crate that knows none of the others.
fn residue_line(finished: &FinishedResidue) -> Line
    ensures value { result ≡ Line.Residue finished.now.index finished.now.modulus finished.now.residue finished.now.kind }
{
    Line::Residue {
        index: finished.index(),
        modulus: finished.modulus(),
        residue: finished.residue(),
        kind: finished.kind(),
    }
}

// The number of the fault and its record.
pub fn fault_line(fault: Fault) -> Line
    ensures value { result ≡ fault_line fault }
{
    Line::Refused {
        number: fault.number(),
        record: fault.record,
    }
}
