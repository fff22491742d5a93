// The three digit sources, alone and chosen at run time.
use crate::moduli::{COMPOSITES, PRIMES, numbers};
use arithmetic::Either;
use digits::{DigitSource, Divider, Doubler, Reciprocal};
use std::process::Abort;
use std::test::Fail;

// The groups of the numbers for p, by division, and the count that rises with each.
fn groups<S: DigitSource>(rt: &impl Abort, source: &mut S, p: u32) {
    assert!(rt; p > 0);
    assert_eq!(rt; (source.modulus(), source.count()), (p, 0));
    let mut taken = 0u64;
    for x in numbers(p) {
        let (quotient, remainder) = source.group(x);
        let wide = x as u64 * 256;
        taken = taken.saturating_add(1);
        let expected = [wide / p as u64, wide % p as u64, taken];
        assert_eq!(rt; [quotient, remainder as u64, source.count()], expected);
    }
    assert_eq!(rt; source.modulus(), p);
}

fn agree(rt: &impl Abort, p: u32) -> Result<(), Fail> {
    groups(rt, &mut Doubler::new(p)?, p);
    groups(rt, &mut Divider::new(p)?, p);
    groups(rt, &mut Reciprocal::new(p)?, p);
    let mut left: Either<Doubler, Reciprocal> = Either::Left(Doubler::new(p)?);
    groups(rt, &mut left, p);
    let mut right: Either<Doubler, Reciprocal> = Either::Right(Reciprocal::new(p)?);
    groups(rt, &mut right, p);
    Ok(())
}

#[test]
fn sources_agree(rt: HostRuntime) -> Result<(), Fail> {
    for &p in PRIMES.iter().chain(&COMPOSITES) {
        agree(&rt, p)?;
    }
    Ok(())
}

// 3/17 begins with the digits 00101101 of 45.
#[test]
fn group_of_three_by_seventeen(rt: HostRuntime) -> Result<(), Fail> {
    let groups = [
        Doubler::new(17)?.group(3),
        Divider::new(17)?.group(3),
        Reciprocal::new(17)?.group(3),
    ];
    assert_eq!(rt; groups, [(45, 3); 3]);
    Ok(())
}

struct Corrected {
    modulus: u32,
    point: u32,
    quotient: u64,
    remainder: u32,
}

// Points at which the reciprocal's guess is one too small. There are none for a modulus below 2^27.
static CORRECTED: [Corrected; 6] = [
    Corrected {
        modulus: 149999855,
        point: 141210801,
        quotient: 241,
        remainder: 1,
    },
    Corrected {
        modulus: 268434373,
        point: 254802940,
        quotient: 243,
        remainder: 1,
    },
    Corrected {
        modulus: 1610612737,
        point: 1075838977,
        quotient: 171,
        remainder: 85,
    },
    Corrected {
        modulus: 2000000009,
        point: 1851562509,
        quotient: 237,
        remainder: 171,
    },
    Corrected {
        modulus: 2000000011,
        point: 726562504,
        quotient: 93,
        remainder: 1,
    },
    Corrected {
        modulus: 2147480633,
        point: 2071983267,
        quotient: 247,
        remainder: 1,
    },
];

#[test]
fn guesses_put_right(rt: HostRuntime) -> Result<(), Fail> {
    for case in &CORRECTED {
        let mut source = Reciprocal::new(case.modulus)?;
        let guess = source.guess(case.point);
        let group = source.group(case.point);
        assert_eq!(rt;
            (guess.saturating_add(1), group),
            (case.quotient, (case.quotient, case.remainder))
        );
    }
    let exact = Reciprocal::new(17)?;
    assert_eq!(rt; exact.guess(3), 45);
    Ok(())
}

// The counts before a group and after one, two groups.
fn counts<S: DigitSource>(source: &mut S) -> [u64; 3] {
    let before = source.count();
    let _ = source.group(3);
    let once = source.count();
    let _ = source.group(3);
    [before, once, source.count()]
}

// The count rises to 2^63 − 1 and stays there.
#[test]
fn counts_stay_at_the_top(rt: HostRuntime) -> Result<(), Fail> {
    let top = 9223372036854775807u64;
    let risen = [
        counts(&mut Doubler::resume(17, top - 1)?),
        counts(&mut Divider::resume(17, top - 1)?),
        counts(&mut Reciprocal::resume(17, top - 1)?),
    ];
    assert_eq!(rt; risen, [[top - 1, top, top]; 3]);
    assert_eq!(rt; counts(&mut Doubler::resume(17, 5)?), [5, 6, 7]);
    assert_eq!(rt;
        counts(&mut Divider::resume(17, 18446744073709551615)?),
        [top; 3]
    );
    assert_eq!(rt; counts(&mut Reciprocal::resume(17, top + 1)?), [top; 3]);
    Ok(())
}
