// Residues that were finished outside the session.
use crate::stop::Stop;
use arithmetic::Plain;
use run::{FinishedResidue, LARGEST_SHARE, Run};
use theory::Kind;

// What a direct run gives that is taken in one share.
pub(crate) fn finished(index: u32, modulus: u32, generator: u32) -> Result<FinishedResidue, Stop> {
    let plain = Plain::new(modulus)?;
    let mut run = Run::open(Kind::Direct, index, modulus, generator)?;
    run.carry_on(&plain, LARGEST_SHARE)?;
    let finished = run.finish(&plain).map_err(|(refusal, _)| refusal)?;
    Ok(finished)
}
