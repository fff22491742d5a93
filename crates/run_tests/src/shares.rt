// Shares of different sizes with changing arithmetics reach what single terms reach.
use crate::told::{finished, standing};
use arithmetic::{Balanced, Either, Montgomery, Plain};
use run::{LARGEST_SHARE, Run};
use std::process::Abort;
use std::test::Fail;
use theory::Kind;

type AnyArithmetic = Either<Plain, Either<Montgomery, Balanced>>;

// All arithmetics of one modulus.
fn arithmetics(modulus: u32) -> Result<[AnyArithmetic; 3], Fail> {
    Ok([
        Either::Left(Plain::new(modulus)?),
        Either::Right(Either::Left(Montgomery::new(modulus)?)),
        Either::Right(Either::Right(Balanced::new(modulus)?)),
    ])
}

// Shares of `size` terms for eight turns and then all that is left, beside a run that takes its terms one by one.
fn beside_single_terms(
    rt: &impl Abort,
    kind: Kind,
    modulus: u32,
    generator: u32,
    index: u32,
    size: u32,
) -> Result<(), Fail> {
    let [plain, montgomery, balanced] = arithmetics(modulus)?;
    let all = [&plain, &montgomery, &balanced];
    let mut run = Run::open(kind, index, modulus, generator)?;
    let mut single = Run::open(kind, index, modulus, generator)?;
    let sizes = [size; 8].into_iter().chain([LARGEST_SHARE]);
    let turns = all.into_iter().cycle().skip(size as usize);
    for (terms, arithmetic) in sizes.zip(turns) {
        if run.left() == 0 {
            break;
        }
        let share = run.carry_on(arithmetic, terms)?;
        assert!(rt; share > 0);
        for _i in 0..share {
            assert_eq!(rt; single.carry_on(&plain, 1)?, 1);
        }
        assert_eq!(rt; standing(&run), standing(&single));
    }
    assert_eq!(rt; run.left(), 0);
    let residue = finished(run, &montgomery)?.residue();
    assert_eq!(rt; residue, finished(single, &balanced)?.residue());
    Ok(())
}

// kind, modulus, generator, index: rows of odd and of even length, one row and several, sound pairs and others
static RUNS: [(Kind, u32, u32, u32); 15] = [
    (Kind::Direct, 5, 2, 2),
    (Kind::Doubling, 5, 2, 2),
    (Kind::Direct, 17, 3, 8),
    (Kind::Doubling, 17, 3, 2),
    (Kind::Direct, 31, 3, 12),
    (Kind::Doubling, 31, 3, 12),
    (Kind::Direct, 37, 2, 32),
    (Kind::Doubling, 37, 2, 32),
    (Kind::Direct, 9, 2, 2),
    (Kind::Direct, 9, 3, 2),
    (Kind::Direct, 15, 3, 6),
    (Kind::Direct, 341, 2, 4),
    (Kind::Doubling, 341, 2, 4),
    (Kind::Direct, 561, 5, 6),
    (Kind::Doubling, 561, 5, 6),
];

#[test]
fn shares_reach_single_terms(rt: HostRuntime) -> Result<(), Fail> {
    for (kind, modulus, generator, index) in RUNS {
        for size in [1, 2, 3, 5, 7, 8, 19u32] {
            beside_single_terms(&rt, kind, modulus, generator, index, size)?;
        }
    }
    Ok(())
}

// kind, modulus, generator, index, terms and partial sum
static PARTIAL: [(Kind, u32, u32, u32, u32, u32); 9] = [
    (Kind::Direct, 17, 3, 8, 3, 13),
    (Kind::Direct, 17, 3, 8, 8, 8),
    (Kind::Direct, 9, 2, 2, 3, 7),
    (Kind::Direct, 31, 3, 12, 6, 28),
    (Kind::Doubling, 17, 3, 2, 4, 15),
    (Kind::Doubling, 17, 3, 2, 8, 2),
    (Kind::Doubling, 31, 3, 12, 5, 30),
    (Kind::Doubling, 31, 3, 12, 6, 12),
    (Kind::Doubling, 31, 3, 12, 15, 18),
];

#[test]
fn partial_sums(rt: HostRuntime) -> Result<(), Fail> {
    for (kind, modulus, generator, index, terms, sum) in PARTIAL {
        let mut run = Run::open(kind, index, modulus, generator)?;
        assert_eq!(rt; run.carry_on(&Balanced::new(modulus)?, terms)?, terms);
        assert_eq!(rt; (run.taken(), run.partial_sum()), (terms, sum));
    }
    Ok(())
}
