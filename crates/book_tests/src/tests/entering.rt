// Beginning and entering.
use super::{listing_of, number, pair};
use book::Listing;
use std::alloc::Global;
use std::process::Abort;
use std::test::Fail;

// The chain rises, in whatever order the pairs came.
fn rises(rt: &impl Abort, heap: Global, pairs: &[(u32, u32)]) -> Result<(), Fail> {
    let listing = listing_of(rt, heap, 2, pairs)?;
    assert_eq!(rt; listing.count(), 4);
    assert_eq!(rt; pair(&listing, 0), Some((5, 2)));
    assert_eq!(rt; pair(&listing, 1), Some((7, 3)));
    assert_eq!(rt; pair(&listing, 2), Some((11, 2)));
    assert_eq!(rt; pair(&listing, 3), Some((13, 6)));
    assert_eq!(rt; pair(&listing, 4), None);
    Ok(())
}

#[test]
fn orders(rt: HostRuntime) -> Result<(), Fail> {
    rises(&rt, rt.alloc(), &[(5, 2), (7, 3), (11, 2), (13, 6)])?;
    rises(&rt, rt.alloc(), &[(13, 6), (11, 2), (7, 3), (5, 2)])?;
    rises(&rt, rt.alloc(), &[(11, 2), (5, 2), (13, 6), (7, 3)])
}

#[test]
fn indices(rt: HostRuntime) -> Result<(), Fail> {
    let mut listing = Listing::new(rt.alloc())?;
    assert_eq!(rt; listing.index(), 2);
    assert_eq!(rt; listing.count(), 0);
    let mut kept = 2;
    for (index, expected) in [
        (0, Some(1)),
        (1, Some(1)),
        (3, Some(1)),
        (8, None),
        (9, Some(1)),
        (2147483646, None),
        (2147483647, Some(1)),
        (2147483648, Some(1)),
        (4294967295, Some(1)),
        (2, None),
    ] {
        assert_eq!(rt; number(listing.begin(index)), expected);
        if expected.is_none() {
            kept = index;
        }
        assert_eq!(rt; listing.index(), kept);
    }
    Ok(())
}

// One listing for index 8 with the modulus 17: each refusal, and each two causes that hold at once.
#[test]
fn refusals(rt: HostRuntime) -> Result<(), Fail> {
    let mut listing = listing_of(&rt, rt.alloc(), 8, &[(17, 3)])?;
    for ((modulus, generator), expected) in [
        ((3, 2), Some(2)),
        ((4, 3), Some(2)),
        ((16, 3), Some(2)),
        ((2147483649, 3), Some(2)),
        ((4294967295, 3), Some(2)),
        ((3, 0), Some(2)),
        ((9, 0), Some(3)),
        ((19, 1), Some(3)),
        ((19, 19), Some(3)),
        ((17, 17), Some(3)),
        ((5, 2), Some(4)),
        ((9, 8), Some(4)),
        ((17, 5), Some(6)),
        ((11, 2), None),
        ((2147483647, 2147483646), None),
        ((11, 2), Some(6)),
    ] {
        let before = listing.count();
        assert_eq!(rt; number(listing.enter(modulus, generator)), expected);
        let grown = listing.count() != before;
        assert_eq!(rt; grown, expected.is_none());
    }
    assert_eq!(rt; pair(&listing, 0), Some((11, 2)));
    assert_eq!(rt; pair(&listing, 1), Some((17, 3)));
    assert_eq!(rt; pair(&listing, 2), Some((2147483647, 2147483646)));
    assert_eq!(rt; number(listing.begin(2)), None);
    assert_eq!(rt; listing.count(), 0);
    Ok(())
}

// 1,023 pairs fill a listing; what else is wrong with a pair is told first, but for a modulus that is listed.
#[test]
fn full(rt: HostRuntime) -> Result<(), Fail> {
    let mut listing = Listing::new(rt.alloc())?;
    assert_eq!(rt; number(listing.begin(10)), None);
    let mut modulus: u32 = 2147483647;
    for _ in 0..1023 {
        assert_eq!(rt; number(listing.enter(modulus, 2)), None);
        modulus = modulus.wrapping_sub(2);
    }
    assert_eq!(rt; listing.count(), 1023);
    for ((modulus, generator), expected) in [
        ((13, 2), Some(5)),
        ((2147483647, 2), Some(5)),
        ((12, 2), Some(2)),
        ((13, 13), Some(3)),
        ((11, 2), Some(4)),
    ] {
        assert_eq!(rt; number(listing.enter(modulus, generator)), expected);
    }
    assert_eq!(rt; listing.count(), 1023);
    assert_eq!(rt; pair(&listing, 0), Some((2147481603, 2)));
    assert_eq!(rt; pair(&listing, 1022), Some((2147483647, 2)));
    Ok(())
}
