// What stands for a run by its number, and taking it out.
ghost use Rattle.std.specs.Prelude.{◌≡◌, vec_len, vec_capacity};
ghost use Rattle.session.specs.Slots.{GivesRun, GivesFinished, Taken};

use run::{FinishedResidue, Run};

#[derive(Drop)]
pub(crate) enum Slot {
    Open(Run),
    // what finishing it gave
    Finished(FinishedResidue),
    // that was filled in
    Spent,
}

impl TryFrom<Slot> for Run {
    type Error = Slot;

    ghost try_from_gives = { GivesRun };

    fn try_from(slot: Slot) -> Result<Run, Slot> {
        match slot {
            Slot::Open(run) => Ok(run),
            other => Err(other),
        }
    }
}

impl TryFrom<Slot> for FinishedResidue {
    type Error = Slot;

    ghost try_from_gives = { GivesFinished };

    fn try_from(slot: Slot) -> Result<FinishedResidue, Slot> {
        match slot {
            Slot::Finished(finished) => Ok(finished),
            other => Err(other),
        }
    }
}

// Takes out what stands for the run of that number, where it is what is wanted: it counts as spent then.
pub(crate) fn take<T: TryFrom<Slot, Error = Slot>>(runs: &mut Vec<Slot>, number: usize) -> Option<T>
    ensures taken { Taken T.try_from_gives runs.old.items runs.new.items number result }
    ensures len { vec_len runs.new ≡ vec_len runs.old }
    ensures capacity { vec_capacity runs.new ≡ vec_capacity runs.old }
{
    if number >= runs.len() {
        return None;
    }
    match T::try_from(std::mem::replace(&mut runs[number], Slot::Spent)) {
        Ok(wanted) => Some(wanted),
        Err(other) => {
            runs[number] = other;
            None
        }
    }
}
