// The numbers of the refusals, and the moduli that are refused.
use arithmetic::{Balanced, Modulus, Montgomery, Plain, Refusal};
use digits::{Divider, Doubler, Reciprocal};
use std::test::Fail;
use theory::Kind;

// The number of the refusal, where there was one.
fn refused<T: Drop>(made: Result<T, Refusal>) -> Option<u8> {
    made.err().map(Refusal::number)
}

// What trying the modulus and making each arithmetic and each source for it answers.
fn makings(modulus: u32) -> [Option<u8>; 10] {
    [
        refused(Modulus::try_from(modulus)),
        refused(Plain::new(modulus)),
        refused(Montgomery::new(modulus)),
        refused(Balanced::new(modulus)),
        refused(Doubler::new(modulus)),
        refused(Divider::new(modulus)),
        refused(Reciprocal::new(modulus)),
        refused(Doubler::resume(modulus, 7)),
        refused(Divider::resume(modulus, 7)),
        refused(Reciprocal::resume(modulus, 7)),
    ]
}

#[test]
fn unfit_moduli(rt: HostRuntime) {
    for modulus in [0, 1, 2, 3, 4, 6, 2147483648, 2147483649, 4294967295u32] {
        assert_eq!(rt; makings(modulus), [Some(2); 10]);
    }
    for modulus in [5, 7, 9, 2147483645, 2147483647u32] {
        assert_eq!(rt; makings(modulus), [None; 10]);
    }
}

static NUMBERED: [(Refusal, u8); 19] = [
    (Refusal::Index, 1),
    (Refusal::Modulus, 2),
    (Refusal::Generator, 3),
    (Refusal::IndexAboveModulus, 4),
    (Refusal::ListingFull, 5),
    (Refusal::AlreadyListed, 6),
    (Refusal::OtherGenerator, 7),
    (Refusal::OtherIndex, 8),
    (Refusal::NotListed, 9),
    (Refusal::AlreadyFilled, 10),
    (Refusal::NotUsable, 11),
    (Refusal::CellCount, 12),
    (Refusal::OtherArithmetic, 13),
    (Refusal::OtherSource, 14),
    (Refusal::Share, 15),
    (Refusal::DirectRun, 16),
    (Refusal::NoTermLeft, 17),
    (Refusal::TermsLeft, 18),
    (Refusal::OutputShort, 23),
];

#[test]
fn refusal_numbers(rt: HostRuntime) {
    for &(refusal, number) in &NUMBERED {
        assert_eq!(rt; refusal.number(), number);
    }
}

#[test]
fn texts(rt: HostRuntime) -> Result<(), Fail> {
    let texts = format!(in rt.alloc(); "{}: {}", Kind::Doubling, Refusal::NotUsable)?;
    assert_eq!(rt; texts.as_str(), "doubling: a doubling run is not usable");
    Ok(())
}
