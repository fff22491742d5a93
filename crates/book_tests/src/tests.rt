// What the tests have in common.
mod books;
mod entering;
mod files;
mod lines;
mod showing;

use arithmetic::Refusal;
use book::Listing;
use std::alloc::{AllocError, Global};
use std::process::Abort;
use std::test::Fail;
use table::{Fault, Layer};

// The number of a refusal, where there is one.
fn number<T: Drop>(answer: Result<T, Refusal>) -> Option<u8> {
    answer.err().map(|refusal| refusal.number())
}

// The number of a fault, its record, and whether it is one of the job.
fn told(answer: Result<(), Fault>) -> Option<(u8, u32, bool)> {
    let fault = answer.err()?;
    Some((
        fault.number(),
        fault.record,
        matches!(fault.layer, Layer::Job(_)),
    ))
}

fn file_of(heap: Global, words: &[u32]) -> Result<Vec<u8>, AllocError> {
    let mut bytes = Vec::new(heap);
    for word in words {
        for byte in word.to_le_bytes() {
            bytes.push(byte)?;
        }
    }
    Ok(bytes)
}

// The pair at a position of the chain.
fn pair(listing: &Listing, position: usize) -> Option<(u32, u32)> {
    let pair = listing.pair(position)?;
    Some((pair.modulus, pair.generator))
}

fn listing_of(
    rt: &impl Abort,
    heap: Global,
    index: u32,
    pairs: &[(u32, u32)],
) -> Result<Listing, Fail> {
    let mut listing = Listing::new(heap)?;
    assert_eq!(rt; number(listing.begin(index)), None);
    for (modulus, generator) in pairs {
        assert_eq!(rt; number(listing.enter(*modulus, *generator)), None);
    }
    Ok(listing)
}
