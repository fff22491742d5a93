// Pairs that no run serves, and the largest modulus.
use crate::stop::Stop;
use run::Run;
use theory::Kind;
use work::work_run;

// Modulus, generator and index, with the number of the refusal.
fn show_refusal(rt: &HostRuntime, modulus: u32, generator: u32, index: u32) -> Result<(), Stop> {
    print!(rt; "index {index} for ({modulus}, {generator}): ")?;
    match Run::open(Kind::Direct, index, modulus, generator) {
        Ok(_) => println!(rt; "a run was opened")?,
        Err(refusal) => {
            let number = refusal.number();
            println!(rt; "refused by {number}")?;
        }
    }
    Ok(())
}

// 4 is above 5 − 3; 3 is too small for a modulus, and 4 is even.
pub(crate) fn refused_pairs(rt: &HostRuntime) -> Result<(), Stop> {
    show_refusal(rt, 5, 2, 4)?;
    show_refusal(rt, 3, 2, 2)?;
    show_refusal(rt, 4, 3, 2)
}

// B_2 = 1/6 modulo 2^31 − 1, where 2 has the order 31: 34,636,833 rows of 31 terms.
pub(crate) fn largest_modulus(rt: &HostRuntime) -> Result<(), Stop> {
    let finished = work_run(Run::open(Kind::Doubling, 2, 2147483647, 7)?);
    let index = finished.index();
    let modulus = finished.modulus();
    let residue = finished.residue();
    println!(rt; "B_{index} = {residue} mod {modulus}")?;
    Ok(())
}
