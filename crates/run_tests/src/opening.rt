// What opening refuses, and in which order.
use crate::told::{refused, standing};
use run::Run;
use std::test::Fail;
use theory::Kind;

// index, modulus, generator, and the number of the refusal of either kind of run
static UNFIT: [(u32, u32, u32, u8); 24] = [
    (0, 17, 3, 1),
    (1, 17, 3, 1),
    (7, 17, 3, 1),
    (2147483647, 17, 3, 1),
    (2147483648, 17, 3, 1),
    (4294967295, 17, 3, 1),
    (2, 0, 3, 2),
    (2, 3, 2, 2),
    (2, 4, 2, 2),
    (2, 16, 3, 2),
    (2, 2147483648, 3, 2),
    (2, 2147483649, 3, 2),
    (2, 17, 0, 3),
    (2, 17, 1, 3),
    (2, 17, 17, 3),
    (4, 5, 2, 4),
    (16, 17, 3, 4),
    (2147483646, 2147483647, 7, 4),
    // several causes: the first of them
    (3, 16, 1, 1),
    (2147483648, 17, 3, 1),
    (16, 4, 1, 2),
    (16, 4, 3, 2),
    (16, 17, 1, 3),
    (16, 17, 17, 3),
];

#[test]
fn unfit_pairs(rt: HostRuntime) {
    for (index, modulus, generator, number) in UNFIT {
        let direct = refused(Run::open(Kind::Direct, index, modulus, generator));
        let doubling = refused(Run::open(Kind::Doubling, index, modulus, generator));
        assert_eq!(rt; [direct, doubling], [Some(number); 2]);
    }
}

// kind, index, modulus, generator and the number of the refusal, if there is one: by 17 the power 2^8 leaves 1, and by 9 the rows do not fit
static NOT_USABLE: [(Kind, u32, u32, u32, Option<u8>); 7] = [
    (Kind::Doubling, 8, 17, 3, Some(11)),
    (Kind::Direct, 8, 17, 3, None),
    (Kind::Doubling, 6, 17, 3, None),
    (Kind::Doubling, 2, 9, 2, Some(11)),
    (Kind::Direct, 2, 9, 2, None),
    // several causes: the first of them
    (Kind::Doubling, 8, 17, 1, Some(3)),
    (Kind::Doubling, 16, 17, 3, Some(4)),
];

#[test]
fn doubling_not_usable(rt: HostRuntime) {
    for (kind, index, modulus, generator, number) in NOT_USABLE {
        assert_eq!(rt; refused(Run::open(kind, index, modulus, generator)), number);
    }
}

// kind, index, modulus, generator and terms, at the edges of what is fit
static OPENED: [(Kind, u32, u32, u32, u32); 6] = [
    (Kind::Direct, 2, 5, 4, 2),
    (Kind::Doubling, 2, 5, 2, 2),
    (Kind::Direct, 14, 17, 16, 8),
    (Kind::Direct, 2147483644, 2147483647, 2147483646, 1073741823),
    (Kind::Doubling, 2, 2147483647, 7, 1073741823),
    (Kind::Doubling, 2147483644, 2147483647, 7, 1073741823),
];

#[test]
fn opened_with_every_term_left(rt: HostRuntime) -> Result<(), Fail> {
    for (kind, index, modulus, generator, terms) in OPENED {
        let run = Run::open(kind, index, modulus, generator)?;
        assert_eq!(rt; standing(&run), [0, terms, 0]);
    }
    Ok(())
}
