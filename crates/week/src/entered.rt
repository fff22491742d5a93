// The calls on the listing, before it is released.
use session::ListingCall;

fn begin(index: u32) -> ListingCall {
    ListingCall::Begin { index }
}

fn enter(modulus: u32, generator: u32) -> ListingCall {
    ListingCall::Enter { modulus, generator }
}

// What is listed when the listing is begun anew is gone. 15 is no prime, but no call asks.
pub(crate) fn entered() -> [ListingCall; 13] {
    [
        begin(3),
        begin(4),
        enter(5, 2),
        enter(11, 2),
        begin(2),
        enter(17, 3),
        enter(7, 3),
        enter(37, 2),
        enter(5, 2),
        enter(15, 2),
        enter(16, 3),
        enter(19, 19),
        enter(17, 3),
    ]
}
