// The calls on the book and its runs, after the release.
use crate::brought::{Call, balanced, divider, doubler, montgomery, plain, reciprocal};
use crate::calls::Calls;
use crate::elsewhere::finished;
use crate::stop::Stop;
use std::alloc::Global;
use theory::Kind;

// Runs 0 to 3, two of them for one modulus. 11 is no longer listed, and 2^14 leaves 4 by 15, so 15 has no doubling run.
fn open_runs(calls: &mut Calls) -> Result<(), Stop> {
    calls.open(Kind::Doubling, 17)?;
    calls.open(Kind::Direct, 7)?;
    calls.open(Kind::Doubling, 37)?;
    calls.open(Kind::Doubling, 37)?;
    calls.open(Kind::Doubling, 11)?;
    calls.open(Kind::Doubling, 15)?;
    Ok(())
}

// A run that every share takes up with another arithmetic.
fn carry_run_0(calls: &mut Calls) -> Result<(), Stop> {
    calls.tell(0)?;
    calls.carry_on(0, 4, plain(17)?)?;
    calls.tell(0)?;
    calls.carry_on(0, 2, plain(37)?)?;
    calls.carry_on(0, 0, plain(17)?)?;
    calls.finish(0, plain(17)?)?;
    calls.carry_on(0, 2, montgomery(17)?)?;
    calls.carry_on(0, 1000, balanced(17)?)?;
    calls.tell(0)?;
    calls.carry_on(0, 4, balanced(17)?)?;
    Ok(())
}

// From finishing to the residue in the book. Run 4 is never opened.
fn fill_in_run_0(calls: &mut Calls) -> Result<(), Stop> {
    calls.fill(0)?;
    calls.finish(0, montgomery(17)?)?;
    calls.tell(0)?;
    calls.tell(4)?;
    calls.show(17)?;
    calls.fill(0)?;
    calls.fill(0)?;
    calls.show(17)?;
    calls.open(Kind::Direct, 17)?;
    Ok(())
}

// A direct run, finished with another arithmetic than it was begun with.
fn work_run_1(calls: &mut Calls) -> Result<(), Stop> {
    calls.count_on(1, 2, plain(7)?, divider(7)?, 256)?;
    calls.carry_on(1, 1000, plain(7)?)?;
    calls.tell(1)?;
    calls.finish(1, balanced(7)?)?;
    Ok(())
}

// A run that every share counts on with another arithmetic and another source.
fn count_run_2(calls: &mut Calls) -> Result<(), Stop> {
    calls.count_on(2, 8, montgomery(37)?, reciprocal(37)?, 255)?;
    calls.count_on(2, 8, montgomery(37)?, reciprocal(17)?, 256)?;
    calls.count_on(2, 8, montgomery(37)?, reciprocal(37)?, 256)?;
    calls.tell(2)?;
    calls.count_on(2, 8, balanced(37)?, doubler(37)?, 256)?;
    calls.tell(2)?;
    calls.count_on(2, 1000, plain(37)?, divider(37)?, 256)?;
    calls.tell(2)?;
    calls.count_on(2, 8, plain(37)?, divider(37)?, 256)?;
    calls.finish(2, montgomery(37)?)?;
    calls.fill(2)?;
    Ok(())
}

// The second run of its modulus, counted in one share, comes too late.
fn count_run_3(calls: &mut Calls) -> Result<(), Stop> {
    calls.count_on(3, 1000, plain(37)?, divider(37)?, 256)?;
    calls.finish(3, balanced(37)?)?;
    calls.fill(3)?;
    Ok(())
}

// Residues of another index, of a modulus that is not listed and of another generator than the record of 7 has, and one
// that is wanted. The record of 7 still waits for what run 1 gave.
fn fill_from_elsewhere(calls: &mut Calls) -> Result<(), Stop> {
    calls.fill_with(finished(4, 7, 3)?)?;
    calls.fill_with(finished(2, 11, 2)?)?;
    calls.fill_with(finished(2, 7, 6)?)?;
    calls.fill_with(finished(2, 5, 2)?)?;
    calls.fill(1)?;
    Ok(())
}

fn show_all(calls: &mut Calls) -> Result<(), Stop> {
    calls.show(5)?;
    calls.show(7)?;
    calls.show(11)?;
    calls.show(15)?;
    calls.show(37)?;
    Ok(())
}

pub(crate) fn week(heap: Global) -> Result<Vec<Call>, Stop> {
    let mut calls = Calls::new(heap);
    open_runs(&mut calls)?;
    carry_run_0(&mut calls)?;
    fill_in_run_0(&mut calls)?;
    work_run_1(&mut calls)?;
    count_run_2(&mut calls)?;
    count_run_3(&mut calls)?;
    fill_from_elsewhere(&mut calls)?;
    show_all(&mut calls)?;
    Ok(calls.into_list())
}
