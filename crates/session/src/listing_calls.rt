// The calls of a session on its listing.
ghost use Rattle.std.specs.Prelude.{◌≡◌, ◌+◌, ◌≤◌, [], map, length, vec_len, vec_capacity};
ghost use Rattle.book.specs.Listings.{listing};
ghost use Rattle.session.specs.Deeds.{listing_deed};
ghost use Rattle.session.specs.Sessions.{Goes, Went};
ghost use Rattle.session.specs.Turns.{answer_of};

use crate::answer::Answer;
use crate::call::ListingCall;
use arithmetic::Refusal;
use book::Listing;

fn make_listing_call(on: &mut Listing, call: ListingCall) -> Result<Answer, Refusal>
    ensures goes { Goes (listing on.old) [] (listing on.new) [] (listing_deed call) (answer_of result) }
{
    match call {
        ListingCall::Begin { index } => on.begin(index)?,
        ListingCall::Enter { modulus, generator } => on.enter(modulus, generator)?,
    }
    Ok(Answer::Done)
}

// Makes the calls in their order, and puts their answers behind those that are there.
pub(crate) fn make_listing_calls(on: &mut Listing, calls: &[ListingCall], answers: &mut Vec<Answer>)
    requires room { vec_len answers.old + length calls.now ≤ vec_capacity answers.old }
    ensures went { Went (listing on.old) [] (listing on.new) [] (map listing_deed calls.now) answers.old.items answers.new.items }
    ensures len { vec_len answers.new ≡ vec_len answers.old + length calls.now }
    ensures capacity { vec_capacity answers.new ≡ vec_capacity answers.old }
{
    for call in calls {
        answers.push_reserved(make_listing_call(on, *call).unwrap_or_else(Answer::Refused));
    }
}
