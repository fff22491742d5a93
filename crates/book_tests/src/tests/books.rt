// Books: runs opened for their records, residues filled in, the share and the file.
use super::{file_of, listing_of, number, told};
use arithmetic::{Arithmetic, Plain};
use book::{Book, Listing};
use run::{FinishedResidue, LARGEST_SHARE, Run};
use std::alloc::Global;
use std::process::Abort;
use std::test::Fail;
use theory::Kind;

const MARK: u32 = 4294967295;

pub(super) fn whole(rt: &impl Abort, mut run: Run) -> Result<FinishedResidue, Fail> {
    let plain = Plain::new(run.modulus())?;
    let terms = run.left();
    assert_eq!(rt; run.carry_on(&plain, LARGEST_SHARE)?, terms);
    Ok(run.finish(&plain).map_err(|(refusal, _)| refusal)?)
}

// The number of the refusal and the residue that is handed back, where there is one.
fn fill(book: &mut Book, finished: FinishedResidue) -> Option<(u8, [u32; 4])> {
    let (refusal, finished) = book.fill(finished).err()?;
    Some((refusal.number(), of(&finished)))
}

fn of(finished: &FinishedResidue) -> [u32; 4] {
    [
        finished.index(),
        finished.modulus(),
        finished.generator(),
        finished.residue(),
    ]
}

// The book has the bytes of these words as its file, and an output of one byte less is too short.
fn written(rt: &impl Abort, heap: Global, book: &Book, words: &[u32]) -> Result<(), Fail> {
    let bytes = file_of(heap, words)?;
    let mut output = vec![in heap; 7u8; 64]?;
    assert_eq!(rt; book.write(output.as_mut_slice()).ok(), Some(64));
    assert!(rt; output.as_slice() == bytes.as_slice());
    let mut short = [7u8; 63];
    assert_eq!(rt; number(book.write(&mut short)), Some(23));
    for byte in short {
        assert_eq!(rt; byte, 7);
    }
    Ok(())
}

// Three records filled one by one, with two runs open for one of them. A file with a residue is no listing.
#[test]
fn filled(rt: HostRuntime) -> Result<(), Fail> {
    let heap = rt.alloc();
    let mut book = listing_of(&rt, heap, 2, &[(7, 3), (17, 3), (5, 2)])?.release();
    assert_eq!(rt; (book.index(), book.count(), book.share()), (2, 3, 0));
    let waiting = [3, 2, 3, 0, 2, 7, 3, MARK, 0, 17, 3, MARK, 1, 5, 2, MARK];
    written(&rt, heap, &book, &waiting)?;
    let also = whole(&rt, book.open(Kind::Direct, 17)?)?;
    for (kind, (modulus, generator), residue, share) in [
        (Kind::Doubling, (17, 3), 3, 333),
        (Kind::Direct, (5, 2), 1, 666),
        (Kind::Doubling, (7, 3), 6, 1000),
    ] {
        let finished = whole(&rt, book.open(kind, modulus)?)?;
        assert_eq!(rt; of(&finished), [2, modulus, generator, residue]);
        assert_eq!(rt; fill(&mut book, finished), None);
        assert_eq!(rt; number(book.open(kind, modulus)), Some(10));
        assert_eq!(rt; book.share(), share);
    }
    assert_eq!(rt; fill(&mut book, also), Some((10, [2, 17, 3, 3])));
    let full = [3, 2, 3, 0, 2, 7, 3, 6, 0, 17, 3, 3, 1, 5, 2, 1];
    written(&rt, heap, &book, &full)?;
    let mut listing = Listing::new(heap)?;
    let bytes = file_of(heap, &full)?;
    assert_eq!(rt; told(listing.read(bytes.as_slice())), Some((22, 3, false)));
    assert_eq!(rt; listing.release().share(), 1000);
    Ok(())
}

// What opening refuses: a modulus that is not listed, a record that has its residue, a run that is not usable, and the
// second of these before the third.
#[test]
fn opening(rt: HostRuntime) -> Result<(), Fail> {
    let mut book = listing_of(&rt, rt.alloc(), 8, &[(17, 3), (11, 2)])?.release();
    for (filled, kind, modulus, expected) in [
        (false, Kind::Direct, 17, None),
        (false, Kind::Doubling, 17, Some(11)),
        (false, Kind::Doubling, 11, None),
        (false, Kind::Direct, 13, Some(9)),
        (false, Kind::Doubling, 0, Some(9)),
        (true, Kind::Direct, 17, Some(10)),
        (true, Kind::Doubling, 17, Some(10)),
        (true, Kind::Doubling, 11, None),
        (true, Kind::Doubling, 13, Some(9)),
    ] {
        if filled && book.share() == 0 {
            let finished = whole(&rt, book.open(Kind::Direct, 17)?)?;
            assert_eq!(rt; fill(&mut book, finished), None);
        }
        assert_eq!(rt; number(book.open(kind, modulus)), expected);
    }
    assert_eq!(rt; book.share(), 500);
    Ok(())
}

// What filling refuses, in the order of its causes, and that the residue is handed back and the book left as it was. The
// residue of 7 by the generator 5 is the one listed, and yet of another generator.
#[test]
fn refusals(rt: HostRuntime) -> Result<(), Fail> {
    let mut book = listing_of(&rt, rt.alloc(), 2, &[(7, 3), (17, 3), (5, 2)])?.release();
    for ((index, modulus, generator), residue, expected, share) in [
        ((4, 11, 6), 4, Some(8), 0),
        ((4, 7, 6), 0, Some(8), 0),
        ((4, 7, 3), 3, Some(8), 0),
        ((2, 11, 2), 2, Some(9), 0),
        ((2, 7, 6), 0, Some(7), 0),
        ((2, 7, 5), 6, Some(7), 0),
        ((2, 7, 3), 6, None, 333),
        ((2, 7, 3), 6, Some(10), 333),
        ((2, 7, 6), 0, Some(7), 333),
        ((4, 7, 3), 3, Some(8), 333),
        ((2, 17, 3), 3, None, 666),
    ] {
        let finished = whole(&rt, Run::open(Kind::Direct, index, modulus, generator)?)?;
        let given = [index, modulus, generator, residue];
        assert_eq!(rt; of(&finished), given);
        assert_eq!(rt;
            fill(&mut book, finished),
            expected.map(|number| (number, given))
        );
        assert_eq!(rt; book.share(), share);
    }
    Ok(())
}
