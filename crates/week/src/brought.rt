// What the calls of the week bring: one of three arithmetics, one of three sources.
use arithmetic::{Balanced, Either, Montgomery, Plain, Refusal};
use digits::{Divider, Doubler, Reciprocal};
use either::for_both;
use session::BookCall;

pub(crate) type AnyArithmetic = Either<Plain, Either<Montgomery, Balanced>>;

pub(crate) type AnySource = Either<Reciprocal, Either<Doubler, Divider>>;

pub(crate) type Call = BookCall<AnyArithmetic, AnySource>;

// One line each: all that a trait of the six could join is the call of `new`.
pub(crate) fn plain(modulus: u32) -> Result<AnyArithmetic, Refusal> {
    Ok(Either::Left(Plain::new(modulus)?))
}

pub(crate) fn montgomery(modulus: u32) -> Result<AnyArithmetic, Refusal> {
    Ok(Either::Right(Either::Left(Montgomery::new(modulus)?)))
}

pub(crate) fn balanced(modulus: u32) -> Result<AnyArithmetic, Refusal> {
    Ok(Either::Right(Either::Right(Balanced::new(modulus)?)))
}

pub(crate) fn reciprocal(modulus: u32) -> Result<AnySource, Refusal> {
    Ok(Either::Left(Reciprocal::new(modulus)?))
}

pub(crate) fn doubler(modulus: u32) -> Result<AnySource, Refusal> {
    Ok(Either::Right(Either::Left(Doubler::new(modulus)?)))
}

pub(crate) fn divider(modulus: u32) -> Result<AnySource, Refusal> {
    Ok(Either::Right(Either::Right(Divider::new(modulus)?)))
}

// What is printed as the name of an arithmetic or a source.
pub(crate) trait Named {
    fn name(&self) -> &'static str;
}

impl Named for Plain {
    fn name(&self) -> &'static str {
        "plain"
    }
}

impl Named for Montgomery {
    fn name(&self) -> &'static str {
        "Montgomery"
    }
}

impl Named for Balanced {
    fn name(&self) -> &'static str {
        "balanced"
    }
}

impl Named for Reciprocal {
    fn name(&self) -> &'static str {
        "reciprocal"
    }
}

impl Named for Doubler {
    fn name(&self) -> &'static str {
        "doubler"
    }
}

impl Named for Divider {
    fn name(&self) -> &'static str {
        "divider"
    }
}

impl<L: Named, R: Named> Named for Either<L, R> {
    fn name(&self) -> &'static str {
        for_both!(self, side => side.name())
    }
}
