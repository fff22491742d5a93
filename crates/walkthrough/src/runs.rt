// The runs of the walk.
use crate::shown::{show_finished, show_opened, show_share};
use crate::stop::Stop;
use arithmetic::{Arithmetic, Balanced, Montgomery, Plain};
use digits::{DigitSource, Doubler, Reciprocal};
use run::Run;
use theory::Kind;

fn opened(
    rt: &HostRuntime,
    kind: Kind,
    index: u32,
    modulus: u32,
    generator: u32,
) -> Result<Run, Stop> {
    let run = Run::open(kind, index, modulus, generator)?;
    show_opened(rt, &run)?;
    Ok(run)
}

// One share, its terms taken one by one.
fn carry<W: Arithmetic>(
    rt: &HostRuntime,
    run: &mut Run,
    arithmetic: &W,
    how: &str,
    terms: u32,
) -> Result<(), Stop> {
    let share = run.carry_on(arithmetic, terms)?;
    show_share(rt, share, how, run)?;
    Ok(())
}

fn finish<W: Arithmetic>(rt: &HostRuntime, run: Run, arithmetic: &W) -> Result<(), Stop> {
    let finished = run.finish(arithmetic).map_err(|(refusal, _)| refusal)?;
    show_finished(rt, &finished)?;
    Ok(())
}

// One share, counted in groups of eight where they fit into row and share.
fn count<W: Arithmetic, S: DigitSource>(
    rt: &HostRuntime,
    run: &mut Run,
    arithmetic: &W,
    source: &mut S,
    how: &str,
    terms: u32,
) -> Result<(), Stop> {
    let mut cells = [0u64; 256];
    let share = run.count_on(arithmetic, source, &mut cells, terms)?;
    show_share(rt, share, how, run)?;
    let groups = source.count();
    println!(rt; "    the source has handed out {groups}")?;
    Ok(())
}

// A whole direct run, three terms at a time.
pub(crate) fn direct_run(
    rt: &HostRuntime,
    index: u32,
    modulus: u32,
    generator: u32,
) -> Result<(), Stop> {
    let plain = Plain::new(modulus)?;
    let mut run = opened(rt, Kind::Direct, index, modulus, generator)?;
    for _i in 0..run.left().div_ceil(3) {
        carry(rt, &mut run, &plain, "plain", 3)?;
    }
    finish(rt, run, &plain)
}

// A doubling run that every share takes up with another arithmetic.
pub(crate) fn doubling_run(rt: &HostRuntime) -> Result<(), Stop> {
    let mut run = opened(rt, Kind::Doubling, 2, 17, 3)?;
    carry(rt, &mut run, &Montgomery::new(17)?, "Montgomery", 4)?;
    carry(rt, &mut run, &Balanced::new(17)?, "balanced", 4)?;
    finish(rt, run, &Plain::new(17)?)
}

// A doubling run with one row of 18 terms, in mixed shares: counted, one by one, and counted again with another
// arithmetic and another source, where fewer than eight terms are left.
pub(crate) fn counted_run(rt: &HostRuntime) -> Result<(), Stop> {
    let mut run = opened(rt, Kind::Doubling, 2, 37, 2)?;
    let mut reciprocal = Reciprocal::new(37)?;
    let mut doubler = Doubler::new(37)?;
    count(
        rt,
        &mut run,
        &Montgomery::new(37)?,
        &mut reciprocal,
        "Montgomery, counted",
        11,
    )?;
    carry(rt, &mut run, &Plain::new(37)?, "plain", 3)?;
    count(
        rt,
        &mut run,
        &Balanced::new(37)?,
        &mut doubler,
        "balanced, counted",
        1000,
    )?;
    finish(rt, run, &Montgomery::new(37)?)
}

// 2^8 leaves 1 by 17, so no doubling run of index 8 can be opened.
pub(crate) fn refused_run(rt: &HostRuntime) -> Result<(), Stop> {
    match Run::open(Kind::Doubling, 8, 17, 3) {
        Ok(_) => {
            println!(rt; "a doubling run of index 8 for (17, 3) was opened")?;
        }
        Err(refusal) => {
            let number = refusal.number();
            println!(rt; "a doubling run of index 8 for (17, 3): refused by {number}")?;
        }
    }
    Ok(())
}
