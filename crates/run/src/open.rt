// Opening a run.
ghost use Rattle.std.specs.Prelude.{◌≡◌, ◌%◌};
ghost use Rattle.run.specs.Calls.{Opened, Paired, Started};

use crate::order::{leaves_one, row_length};
use crate::progress::{DirectPlace, DoublingPlace, Progress};
use crate::state::Run;
use arithmetic::{Arithmetic, Plain, Refusal, try_index, try_pair};
use theory::Kind;

// Refuses a pair that is not fit for the index; else gives an arithmetic of its modulus.
fn check_pair(index: u32, modulus: u32, generator: u32) -> Result<Plain, Refusal>
    ensures causes { Paired index modulus generator (λ a. a.modulus.number) result }
{
    try_index(index)?;
    try_pair(index, modulus, generator)?;
    Plain::new(modulus)
}

// Where a doubling run begins, if it is usable: 2n' divides p − 1 exactly where 2^(p − 1) leaves 1.
fn start_doubling<W: Arithmetic>(arithmetic: &W, index: u32) -> Option<Progress>
    ensures started { Started Kind.Doubling index (W.modulus arithmetic.now) result }
{
    if !leaves_one(arithmetic, arithmetic.modulus() - 1) {
        return None;
    }
    if leaves_one(arithmetic, index) {
        return None;
    }
    Some(Progress::Doubling(DoublingPlace {
        row_length: row_length(arithmetic),
        place: 0,
        row_point: 1,
        row_weight: 1,
        point: 1,
        weight: 1,
    }))
}

// Where a run of this kind begins, if one can be opened.
fn start<W: Arithmetic>(arithmetic: &W, kind: Kind, index: u32) -> Option<Progress>
    ensures started { Started kind index (W.modulus arithmetic.now) result }
{
    match kind {
        Kind::Direct => Some(Progress::Direct(DirectPlace {
            point: 1,
            weight: 1,
        })),
        Kind::Doubling => start_doubling(arithmetic, index),
    }
}

impl Run {
    // A run that has taken no term.
    pub fn open(kind: Kind, index: u32, modulus: u32, generator: u32) -> Result<Run, Refusal>
        ensures opened { Opened kind index modulus generator result }
    {
        let plain = check_pair(index, modulus, generator)?;
        let Some(progress) = start(&plain, kind, index) else {
            return Err(Refusal::NotUsable);
        };
        Ok(Run {
            index,
            modulus,
            generator,
            taken: 0,
            sum: 0,
            progress,
        })
    }
}
