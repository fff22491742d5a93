// One of two arithmetics, chosen when the program runs.
ghost use Rattle.std.specs.Prelude.{◌≡◌};
ghost use Rattle.either.specs.Either.{either};
ghost use Rattle.arithmetic.specs.Sides.{part_residue, residue_of};
ghost use Rattle.std.proofs.Common.{rules};

use crate::traits::Arithmetic;
use either::{Either, Left, Right, for_both, map_both};

// An element of this arithmetic, where there is one. An element of the other stands for 0.
fn part<W: Arithmetic>(arithmetic: &W, own: Option<W::Element>) -> W::Element
    ensures value { W.residue arithmetic.now result ≡ part_residue (W.residue arithmetic.now) own }
{
    own.unwrap_or_else(|| arithmetic.bring_in(0))
}

// Adding, subtracting and multiplying are alike but for their method: to name it for both sides takes two closures, no plainer.
impl<L: Arithmetic, R: Arithmetic> Arithmetic for Either<L, R> {
    type Element = Either<L::Element, R::Element>;

    ghost modulus = { either L.Arithmetic.modulus R.Arithmetic.modulus };

    ghost residue = { residue_of L.Arithmetic.residue R.Arithmetic.residue };

    ghost fit = { Prim.search rules };

    ghost under = { Prim.search rules };

    fn modulus(&self) -> u32 {
        for_both!(self, w => w.modulus())
    }

    fn bring_in(&self, n: u32) -> Either<L::Element, R::Element> {
        map_both!(self, w => w.bring_in(n))
    }

    fn take_out(&self, e: Either<L::Element, R::Element>) -> u32 {
        match self {
            Left(l) => l.take_out(part(l, e.left())),
            Right(r) => r.take_out(part(r, e.right())),
        }
    }

    fn add(
        &self,
        a: Either<L::Element, R::Element>,
        b: Either<L::Element, R::Element>,
    ) -> Either<L::Element, R::Element> {
        match self {
            Left(l) => Left(l.add(part(l, a.left()), part(l, b.left()))),
            Right(r) => Right(r.add(part(r, a.right()), part(r, b.right()))),
        }
    }

    fn sub(
        &self,
        a: Either<L::Element, R::Element>,
        b: Either<L::Element, R::Element>,
    ) -> Either<L::Element, R::Element> {
        match self {
            Left(l) => Left(l.sub(part(l, a.left()), part(l, b.left()))),
            Right(r) => Right(r.sub(part(r, a.right()), part(r, b.right()))),
        }
    }

    fn mul(
        &self,
        a: Either<L::Element, R::Element>,
        b: Either<L::Element, R::Element>,
    ) -> Either<L::Element, R::Element> {
        match self {
            Left(l) => Left(l.mul(part(l, a.left()), part(l, b.left()))),
            Right(r) => Right(r.mul(part(r, a.right()), part(r, b.right()))),
        }
    }
}
