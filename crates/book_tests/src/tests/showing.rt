// What a book shows of a modulus.
use super::books::whole;
use super::{listing_of, number};
use std::test::Fail;
use theory::Kind;

// A record waits until it is filled, and then has its residue; the others stay as they are.
#[test]
fn showing(rt: HostRuntime) -> Result<(), Fail> {
    let mut book = listing_of(&rt, rt.alloc(), 2, &[(7, 3), (17, 3), (5, 2)])?.release();
    let mut expected = [(5, None), (7, None), (17, None)];
    for (turn, modulus, residue) in [(2, 17, 3), (0, 5, 1), (1, 7, 6)] {
        for (listed, waits) in expected {
            assert_eq!(rt; book.show(listed)?, waits);
        }
        assert_eq!(rt; number(book.show(11)), Some(9));
        assert_eq!(rt; number(book.show(0)), Some(9));
        let finished = whole(&rt, book.open(Kind::Direct, modulus)?)?;
        assert!(rt; book.fill(finished).is_ok());
        expected[turn] = (modulus, Some(residue));
    }
    for (listed, residue) in expected {
        assert_eq!(rt; book.show(listed)?, residue);
    }
    Ok(())
}
