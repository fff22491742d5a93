// What carrying on and finishing refuse, and that a refused call leaves the run as it was.
use crate::told::{finished, handed_back, refused, standing};
use arithmetic::{Arithmetic, Balanced, Montgomery, Plain};
use run::{LARGEST_SHARE, Run};
use std::process::Abort;
use std::test::Fail;
use theory::Kind;

// Each number of terms is refused by this number, and the run stands where it stood.
fn carry_refused<W: Arithmetic>(
    rt: &impl Abort,
    run: &mut Run,
    w: &W,
    terms: [u32; 4],
    number: u8,
) {
    let before = standing(run);
    for count in terms {
        assert_eq!(rt; refused(run.carry_on(w, count)), Some(number));
        assert_eq!(rt; standing(run), before);
    }
}

const OUTSIDE: [u32; 4] = [0, 1048577, 2147483648, 4294967295];

const INSIDE: [u32; 4] = [1, 2, 1048575, 1048576];

// The causes of carrying on, one by one and together: another modulus, the number of terms, no term left.
fn carrying(rt: &impl Abort, kind: Kind) -> Result<(), Fail> {
    let own = Montgomery::new(17)?;
    let other = Montgomery::new(19)?;
    let mut run = Run::open(kind, 2, 17, 3)?;
    assert_eq!(rt; run.carry_on(&own, 5)?, 5);
    carry_refused(rt, &mut run, &other, INSIDE, 13);
    carry_refused(rt, &mut run, &other, OUTSIDE, 13);
    carry_refused(rt, &mut run, &own, OUTSIDE, 15);
    assert_eq!(rt; run.carry_on(&own, LARGEST_SHARE)?, 3);
    carry_refused(rt, &mut run, &other, INSIDE, 13);
    carry_refused(rt, &mut run, &own, OUTSIDE, 15);
    carry_refused(rt, &mut run, &own, INSIDE, 17);
    Ok(())
}

#[test]
fn carrying_on_refused(rt: HostRuntime) -> Result<(), Fail> {
    carrying(&rt, Kind::Direct)?;
    carrying(&rt, Kind::Doubling)
}

// The causes of finishing, another modulus and terms left; the run that is handed back is carried on to its end.
fn finishing(rt: &impl Abort, kind: Kind) -> Result<(), Fail> {
    let own = Balanced::new(17)?;
    let other = Plain::new(15)?;
    let mut run = Run::open(kind, 2, 17, 3)?;
    assert_eq!(rt; run.carry_on(&own, 7)?, 7);
    let before = standing(&run);
    let (number, run) = handed_back(run, &other)?;
    assert_eq!(rt; (number, standing(&run)), (13, before));
    let (number, mut run) = handed_back(run, &own)?;
    assert_eq!(rt; (number, standing(&run)), (18, before));
    assert_eq!(rt; run.carry_on(&own, 7)?, 1);
    let before = standing(&run);
    let (number, run) = handed_back(run, &other)?;
    assert_eq!(rt; (number, standing(&run)), (13, before));
    assert_eq!(rt; finished(run, &own)?.residue(), 3);
    Ok(())
}

#[test]
fn finishing_refused(rt: HostRuntime) -> Result<(), Fail> {
    finishing(&rt, Kind::Direct)?;
    finishing(&rt, Kind::Doubling)
}
