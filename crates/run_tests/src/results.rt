// What whole runs of worked pairs give.
use crate::told::{finished, refused};
use arithmetic::{Arithmetic, Plain};
use run::{LARGEST_SHARE, Run};
use std::process::Abort;
use std::test::Fail;
use theory::Kind;

// modulus, generator, index, result, and whether a doubling run can be opened; of these only (9, 2) is not sound
static WORKED: [(u32, u32, u32, u32, bool); 11] = [
    (5, 2, 2, 1, true),
    (7, 3, 2, 6, true),
    (7, 3, 4, 3, true),
    (11, 2, 8, 4, true),
    (13, 2, 10, 5, true),
    (17, 3, 2, 3, true),
    (17, 3, 8, 13, false),
    (31, 3, 10, 9, false),
    (31, 3, 12, 11, true),
    (37, 2, 32, 0, true),
    (9, 2, 2, 0, false),
];

// One whole run in a single share gives the residue, with the index and the pair that it is of.
fn gives(
    rt: &impl Abort,
    kind: Kind,
    modulus: u32,
    generator: u32,
    index: u32,
    res: u32,
) -> Result<(), Fail> {
    let plain = Plain::new(modulus)?;
    let mut run = Run::open(kind, index, modulus, generator)?;
    assert_eq!(rt;
        (run.kind(), [run.index(), run.modulus(), run.generator()]),
        (kind, [index, modulus, generator])
    );
    let terms = run.left();
    assert_eq!(rt; run.carry_on(&plain, LARGEST_SHARE)?, terms);
    let finished = finished(run, &plain)?;
    let of = [finished.index(), finished.modulus(), finished.generator()];
    assert_eq!(rt;
        (finished.kind(), of, finished.residue()),
        (kind, [index, modulus, generator], res)
    );
    Ok(())
}

#[test]
fn worked_pairs(rt: HostRuntime) -> Result<(), Fail> {
    for (modulus, generator, index, result, usable) in WORKED {
        gives(&rt, Kind::Direct, modulus, generator, index, result)?;
        if usable {
            gives(&rt, Kind::Doubling, modulus, generator, index, result)?;
        } else {
            let opened = Run::open(Kind::Doubling, index, modulus, generator);
            assert_eq!(rt; refused(opened), Some(11));
        }
    }
    Ok(())
}

// modulus, generator, index, direct result and doubling result of pairs that are not sound: each kind has its own.
// 1194649 is 1093², so the powers of 1093 come to the point 0.
static NOT_SOUND: [(u32, u32, u32, u32, u32); 4] = [
    (7, 6, 2, 0, 6),
    (341, 2, 4, 283, 133),
    (561, 5, 6, 432, 39),
    (1194649, 1093, 2, 1192463, 178943),
];

#[test]
fn pairs_not_sound(rt: HostRuntime) -> Result<(), Fail> {
    for (modulus, generator, index, direct, doubling) in NOT_SOUND {
        gives(&rt, Kind::Direct, modulus, generator, index, direct)?;
        gives(&rt, Kind::Doubling, modulus, generator, index, doubling)?;
    }
    Ok(())
}
