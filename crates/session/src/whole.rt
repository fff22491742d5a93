// The one public call: a list of calls, made in their order on one new listing.
ghost use Rattle.std.specs.Prelude.{map, IfOk};
ghost use Rattle.session.specs.Deeds.{deeds};
ghost use Rattle.session.specs.Law.{Answered};

use crate::answer::Answer;
use crate::book_calls::make_book_calls;
use crate::call::{BookCall, ListingCall};
use crate::listing_calls::make_listing_calls;
use crate::state::State;
use arithmetic::Arithmetic;
use book::Listing;
use digits::DigitSource;
use std::alloc::{AllocError, Global};

// Makes the first calls on a new listing, releases it, and makes the other calls on the book. Each call has its answer,
// and calls and answers obey the law of a session, whatever the calls are. All memory is reserved before the first call:
// where it is wanting, none is made.
pub fn work<W: Arithmetic + Drop, D: DigitSource + Drop>(
    heap: Global,
    first: &[ListingCall],
    then: Vec<BookCall<W, D>>,
) -> Result<Vec<Answer>, AllocError>
    ensures law { IfOk result (λ answers. Answered (deeds W.modulus D.DigitSource.modulus first.now then.items) answers.items) }
{
    let mut answers = Vec::with_capacity(heap, first.len() + then.len())?;
    let runs = Vec::with_capacity(heap, then.len())?;
    let mut listing = Listing::new(heap)?;
    make_listing_calls(&mut listing, first, &mut answers);
    let book = listing.release();
    let mut state = State { book, runs };
    make_book_calls(&mut state, then, &mut answers);
    Ok(answers)
}
