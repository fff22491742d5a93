// Files: written and read, and every fault of one.
use super::{file_of, number, pair, told};
use book::Listing;
use std::alloc::Global;
use std::process::Abort;
use std::test::Fail;

const MARK: u32 = 4294967295;

// Reads the words as a file into a listing that held something else, and tells the answer. After a fault the listing is
// empty, with index 2.
fn answer(rt: &impl Abort, heap: Global, words: &[u32]) -> Result<Option<(u8, u32, bool)>, Fail> {
    let bytes = file_of(heap, words)?;
    let mut listing = Listing::new(heap)?;
    assert_eq!(rt; number(listing.begin(4)), None);
    assert_eq!(rt; number(listing.enter(19, 2)), None);
    let answer = told(listing.read(bytes.as_slice()));
    if answer.is_some() {
        assert_eq!(rt; listing.count(), 0);
        assert_eq!(rt; listing.index(), 2);
    }
    Ok(answer)
}

// The book of 48 bytes: its pairs, the same bytes again, the rest of the output left, and outputs that are too short.
#[test]
fn book_of_two(rt: HostRuntime) -> Result<(), Fail> {
    let bytes = file_of(rt.alloc(), &[2, 8, 2, 0, 0, 17, 3, MARK, 1, 11, 2, MARK])?;
    let mut listing = Listing::new(rt.alloc())?;
    assert_eq!(rt; told(listing.read(bytes.as_slice())), None);
    assert_eq!(rt; listing.index(), 8);
    assert_eq!(rt; listing.count(), 2);
    assert_eq!(rt; pair(&listing, 0), Some((11, 2)));
    assert_eq!(rt; pair(&listing, 1), Some((17, 3)));
    let mut output = [7u8; 50];
    assert_eq!(rt; listing.write(&mut output).ok(), Some(48));
    assert!(rt; &output[0..48] == bytes.as_slice());
    assert!(rt; output[48] == 7);
    assert!(rt; output[49] == 7);
    let mut short = [7u8; 47];
    assert_eq!(rt; number(listing.write(&mut short)), Some(23));
    for byte in short {
        assert_eq!(rt; byte, 7);
    }
    Ok(())
}

// Chains that leave the records, turn in a circle, fall, stand still, end early or go on too long.
#[test]
fn chains(rt: HostRuntime) -> Result<(), Fail> {
    let heap = rt.alloc();
    // two pairs, 17 as record 1 and 11 as record 2: only 2, 1, 0 is their chain
    for ((first, after_one, after_two), expected) in [
        ((2, 0, 1), None),
        ((0, 0, 0), Some((21, 0, false))),
        ((1, 0, 0), Some((21, 1, false))),
        ((2, 0, 0), Some((21, 2, false))),
        ((3, 0, 1), Some((21, 3, false))),
        ((MARK, 0, 1), Some((21, MARK, false))),
        ((2, 0, 3), Some((21, 3, false))),
        ((1, 2, 0), Some((21, 2, false))),
        ((2, 0, 2), Some((21, 2, false))),
        ((2, 2, 1), Some((21, 2, false))),
        ((2, 1, 1), Some((21, 1, false))),
        ((2, 3, 1), Some((21, 3, false))),
    ] {
        let words = [
            first, 8, 2, 0, after_one, 17, 3, MARK, after_two, 11, 2, MARK,
        ];
        assert_eq!(rt; answer(&rt, heap, &words)?, expected);
    }
    assert_eq!(rt;
        answer(&rt, heap, &[1, 8, 2, 0, 2, 11, 2, MARK, 0, 11, 2, MARK])?,
        Some((21, 2, false))
    );
    assert_eq!(rt;
        answer(&rt, heap, &[1, 8, 1, 0, 0, 0, 2, MARK])?,
        Some((21, 1, false))
    );
    assert_eq!(rt; answer(&rt, heap, &[1, 8, 0, 0])?, Some((21, 1, false)));
    Ok(())
}

// What is wrong with the head or with one record, and what is told where two things are wrong.
#[test]
fn words(rt: HostRuntime) -> Result<(), Fail> {
    let heap = rt.alloc();
    for ((index, count, zero), expected) in [
        ((8, 1, 0), None),
        ((8, 0, 0), Some((20, 0, false))),
        ((8, 2, 0), Some((20, 0, false))),
        ((8, 1, 1), Some((20, 0, false))),
        ((9, 1, 1), Some((20, 0, false))),
        ((9, 1, 0), Some((1, 0, true))),
        ((0, 1, 0), Some((1, 0, true))),
        ((2147483648, 1, 0), Some((1, 0, true))),
        ((16, 1, 0), Some((4, 1, true))),
    ] {
        assert_eq!(rt;
            answer(&rt, heap, &[1, index, count, zero, 0, 17, 3, MARK])?,
            expected
        );
    }
    for ((modulus, generator, residue), expected) in [
        ((17, 3, 4), Some((22, 1, false))),
        ((17, 3, 0), Some((22, 1, false))),
        ((16, 3, 4), Some((22, 1, false))),
        ((0, 3, 4), Some((21, 1, false))),
        ((16, 3, MARK), Some((2, 1, true))),
        ((3, 0, MARK), Some((2, 1, true))),
        ((2147483649, 3, MARK), Some((2, 1, true))),
        ((17, 1, MARK), Some((3, 1, true))),
        ((17, 17, MARK), Some((3, 1, true))),
        ((9, 0, MARK), Some((3, 1, true))),
        ((9, 2, MARK), Some((4, 1, true))),
    ] {
        assert_eq!(rt;
            answer(&rt, heap, &[1, 8, 1, 0, 0, modulus, generator, residue])?,
            expected
        );
    }
    // the faults of a record come before those of the next
    assert_eq!(rt;
        answer(&rt, heap, &[2, 8, 2, 0, 3, 16, 3, 4, 1, 11, 11, MARK])?,
        Some((3, 2, true))
    );
    assert_eq!(rt;
        answer(&rt, heap, &[2, 8, 2, 0, 3, 16, 3, 4, 1, 11, 2, MARK])?,
        Some((22, 1, false))
    );
    Ok(())
}

// Bytes of every length that matters, all zero: an empty file of 16 bytes has the index 0.
#[test]
fn lengths(rt: HostRuntime) -> Result<(), Fail> {
    let mut listing = Listing::new(rt.alloc())?;
    for (length, expected) in [
        (0, Some((19, 0, false))),
        (1, Some((19, 0, false))),
        (15, Some((19, 0, false))),
        (16, Some((1, 0, true))),
        (17, Some((19, 0, false))),
        (32, Some((20, 0, false))),
        (16384, Some((20, 0, false))),
        (16385, Some((19, 0, false))),
        (16400, Some((19, 0, false))),
    ] {
        let bytes = vec![in rt.alloc(); 0u8; length]?;
        assert_eq!(rt; told(listing.read(bytes.as_slice())), expected);
        assert_eq!(rt; listing.index(), 2);
    }
    let empty = file_of(rt.alloc(), &[0, 2147483646, 0, 0])?;
    assert_eq!(rt; told(listing.read(empty.as_slice())), None);
    assert_eq!(rt; listing.index(), 2147483646);
    assert_eq!(rt; listing.count(), 0);
    Ok(())
}

// A full listing is written, read by another, and written by that with the same bytes. Moduli with their bits reversed come
// in neither rising nor falling order.
#[test]
fn full_again(rt: HostRuntime) -> Result<(), Fail> {
    let mut listing = Listing::new(rt.alloc())?;
    let mut modulus: u32 = 5;
    for _ in 0..1023 {
        assert_eq!(rt;
            number(listing.enter(modulus.reverse_bits() / 2 | 1 | 4, 2)),
            None
        );
        modulus = modulus.wrapping_add(1);
    }
    let mut bytes = vec![in rt.alloc(); 0u8; 16384]?;
    assert_eq!(rt; listing.write(bytes.as_mut_slice()).ok(), Some(16384));
    let mut other = Listing::new(rt.alloc())?;
    assert_eq!(rt; told(other.read(bytes.as_slice())), None);
    assert_eq!(rt; other.count(), 1023);
    let mut again = vec![in rt.alloc(); 1u8; 16384]?;
    assert_eq!(rt; other.write(again.as_mut_slice()).ok(), Some(16384));
    assert!(rt; bytes.as_slice() == again.as_slice());
    Ok(())
}
