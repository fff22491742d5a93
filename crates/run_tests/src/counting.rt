// Counted shares reach what single terms reach, leave zeroes in the cells, and read so many groups and no more.
use crate::told::{finished, refused, standing};
use arithmetic::{Arithmetic, Balanced, Montgomery, Plain};
use digits::{DigitSource, Divider, Doubler, Reciprocal};
use run::Run;
use std::process::Abort;
use std::test::Fail;
use theory::Kind;

fn all_hold(cells: &[u64], value: u64) -> bool {
    cells.iter().all(|cell| *cell == value)
}

// One counted share, in cells that held something else.
fn count<W: Arithmetic, S: DigitSource>(
    rt: &impl Abort,
    run: &mut Run,
    arithmetic: &W,
    source: &mut S,
    terms: u32,
) -> Result<u32, Fail> {
    let mut cells = [99u64; 256];
    let share = run.count_on(arithmetic, source, &mut cells, terms)?;
    assert!(rt; all_hold(&cells, 0));
    Ok(share)
}

// How one share of the mixed run is taken: counted with this source, or one by one.
#[derive(Clone, Copy)]
enum Way {
    Reciprocal,
    Singly,
    Doubler,
    Divider,
}

const WAYS: [Way; 4] = [Way::Reciprocal, Way::Singly, Way::Doubler, Way::Divider];

impl Way {
    // One share, with another arithmetic each way.
    fn take(self, rt: &impl Abort, run: &mut Run, terms: u32) -> Result<u32, Fail> {
        let p = run.modulus();
        match self {
            Way::Reciprocal => {
                let mut source = Reciprocal::new(p)?;
                count(rt, run, &Montgomery::new(p)?, &mut source, terms)
            }
            Way::Singly => Ok(run.carry_on(&Balanced::new(p)?, terms)?),
            Way::Doubler => count(rt, run, &Balanced::new(p)?, &mut Doubler::new(p)?, terms),
            Way::Divider => count(rt, run, &Plain::new(p)?, &mut Divider::new(p)?, terms),
        }
    }
}

// A run in mixed shares beside one whose terms are taken one by one.
fn beside_single_terms(
    rt: &impl Abort,
    modulus: u32,
    generator: u32,
    index: u32,
    size: u32,
) -> Result<(), Fail> {
    let plain = Plain::new(modulus)?;
    let mut run = Run::open(Kind::Doubling, index, modulus, generator)?;
    let mut single = Run::open(Kind::Doubling, index, modulus, generator)?;
    for way in WAYS.into_iter().cycle().skip(size as usize).take(600) {
        if run.left() == 0 {
            break;
        }
        let share = way.take(rt, &mut run, size)?;
        for _i in 0..share {
            assert_eq!(rt; single.carry_on(&plain, 1)?, 1);
        }
        assert_eq!(rt; standing(&run), standing(&single));
    }
    assert_eq!(rt; run.left(), 0);
    let residue = finished(run, &plain)?.residue();
    assert_eq!(rt; residue, finished(single, &plain)?.residue());
    Ok(())
}

// modulus, generator, index: rows shorter and longer than a group, of odd and of even length, one row and many
static RUNS: [(u32, u32, u32); 8] = [
    (5, 2, 2),
    (17, 3, 2),
    (31, 3, 12),
    (37, 2, 32),
    (257, 3, 2),
    (341, 2, 4),
    (561, 5, 6),
    (1009, 11, 10),
];

#[test]
fn counted_shares_reach_single_terms(rt: HostRuntime) -> Result<(), Fail> {
    for (modulus, generator, index) in RUNS {
        for size in [1, 7, 8, 9, 17, 100u32] {
            beside_single_terms(&rt, modulus, generator, index, size)?;
        }
    }
    Ok(())
}

// A row of 18 terms: a share of 17 from its first place has two groups, one of 9 from place 10 has one.
#[test]
fn groups_stay_in_row_and_share(rt: HostRuntime) -> Result<(), Fail> {
    let plain = Plain::new(37)?;
    let mut source = Divider::new(37)?;
    let mut run = Run::open(Kind::Doubling, 2, 37, 2)?;
    assert_eq!(rt; count(&rt, &mut run, &plain, &mut source, 7)?, 7);
    assert_eq!(rt; source.count(), 0);
    assert_eq!(rt; count(&rt, &mut run, &plain, &mut source, 10)?, 10);
    assert_eq!(rt; source.count(), 1);
    assert_eq!(rt; count(&rt, &mut run, &plain, &mut source, 1000)?, 1);
    assert_eq!(rt; source.count(), 1);
    let mut again = Run::open(Kind::Doubling, 2, 37, 2)?;
    assert_eq!(rt; count(&rt, &mut again, &plain, &mut source, 17)?, 17);
    assert_eq!(rt; source.count(), 3);
    // two rows of 11 by 89 and two more: a group does not run over a row's end
    let mut rows = Run::open(Kind::Doubling, 2, 89, 3)?;
    let mut digits = Divider::new(89)?;
    assert_eq!(rt;
        count(&rt, &mut rows, &Plain::new(89)?, &mut digits, 44)?,
        44
    );
    assert_eq!(rt; digits.count(), 4);
    Ok(())
}

// What is refused, with what it leaves: the run and the source.
fn refused_counting(
    rt: &impl Abort,
    run: &mut Run,
    modulus: u32,
    source_modulus: u32,
    cells: &mut [u64],
    terms: u32,
) -> Result<Option<u8>, Fail> {
    let mut source = Divider::new(source_modulus)?;
    let before = standing(run);
    let answer = run.count_on(&Plain::new(modulus)?, &mut source, cells, terms);
    assert_eq!(rt; standing(run), before);
    assert_eq!(rt; source.count(), 0);
    Ok(refused(answer))
}

// modulus of the arithmetic, of the source, terms, and the number by which a direct run of 37 is refused
static CAUSES: [(u32, u32, u32, u8); 4] = [
    (41, 43, 0, 13),
    (37, 43, 0, 14),
    (37, 37, 1048577, 15),
    (37, 37, 8, 16),
];

// Another number of cells is left as it was, and 256 of them hold zeroes.
#[test]
fn counting_refuses_in_order(rt: HostRuntime) -> Result<(), Fail> {
    let mut run = Run::open(Kind::Doubling, 2, 37, 2)?;
    let mut direct = Run::open(Kind::Direct, 2, 37, 2)?;
    let mut few = [5u64; 255];
    let number = refused_counting(&rt, &mut direct, 41, 43, &mut few, 0)?;
    assert_eq!(rt; number, Some(12));
    assert!(rt; all_hold(&few, 5));
    let mut many = [5u64; 257];
    let number = refused_counting(&rt, &mut run, 37, 37, &mut many, 8)?;
    assert_eq!(rt; number, Some(12));
    assert!(rt; all_hold(&many, 5));
    for (modulus, source_modulus, terms, number) in CAUSES {
        let mut cells = [5u64; 256];
        let told = refused_counting(&rt, &mut direct, modulus, source_modulus, &mut cells, terms)?;
        assert_eq!(rt; told, Some(number));
        assert!(rt; all_hold(&cells, 0));
    }
    assert_eq!(rt;
        count(&rt, &mut run, &Plain::new(37)?, &mut Divider::new(37)?, 18)?,
        18
    );
    let mut cells = [5u64; 256];
    let number = refused_counting(&rt, &mut run, 37, 37, &mut cells, 8)?;
    assert_eq!(rt; number, Some(17));
    assert!(rt; all_hold(&cells, 0));
    Ok(())
}
