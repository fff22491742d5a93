// What is printed of a run and of what it gives.
use run::{FinishedResidue, Run};
use std::io;

// Of which kind, index and pair the run is, and how many terms it has.
pub(crate) fn show_opened(rt: &HostRuntime, run: &Run) -> io::Result<()> {
    let kind = run.kind();
    let index = run.index();
    let modulus = run.modulus();
    let generator = run.generator();
    let left = run.left();
    println!(rt; "a {kind} run of index {index} for ({modulus}, {generator}): {left} terms")
}

// The share taken, and where the run stands after it.
pub(crate) fn show_share(rt: &HostRuntime, share: u32, how: &str, run: &Run) -> io::Result<()> {
    let taken = run.taken();
    let left = run.left();
    let sum = run.partial_sum();
    println!(rt; "  {share} more, {how}: {taken} taken, {left} left, partial sum {sum}")
}

// Index, modulus, residue and kind of run.
pub(crate) fn show_finished(rt: &HostRuntime, finished: &FinishedResidue) -> io::Result<()> {
    let index = finished.index();
    let modulus = finished.modulus();
    let residue = finished.residue();
    let kind = finished.kind();
    println!(rt; "{index} {modulus} {residue} {kind}")
}
