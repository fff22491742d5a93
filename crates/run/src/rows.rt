// The rows of a doubling run, as an arithmetic works them.
ghost use Rattle.std.specs.Prelude.{◌≡◌, ◌-◌, ◌*◌, ◌%◌, ◌^◌};
ghost use Rattle.theory.specs.Doubling.{row_length_of};
ghost use Rattle.theory.specs.Pairs.{Fit};

use crate::multiplier::Multiplier;
use crate::share::Share;
use arithmetic::{Arithmetic, raise};

// What every row is made with.
#[derive(Drop)]
pub(crate) struct Rows<'a, W: Arithmetic> {
    pub(crate) arithmetic: &'a W,
    // the run's numbers by value: with the run lent here too the loops got no proof
    pub(crate) index: u32,
    pub(crate) modulus: u32,
    pub(crate) generator: u32,
    pub(crate) row_length: u32,
    // from the first point of a row to that of the next
    pub(crate) row_step: Multiplier,
    // from the first weight of a row to that of the next
    pub(crate) stride: W::Element,
    // from a weight to the next in its row
    pub(crate) ratio: W::Element,
    // from the weight of a group to that of the next group, and of the one after that
    pub(crate) eighth: W::Element,
    pub(crate) sixteenth: W::Element,
    ghost fit: { Fit index modulus generator },
    ghost same: { W.modulus arithmetic.now ≡ modulus },
    ghost length_is: { row_length ≡ row_length_of modulus },
    ghost factor_is: { row_step.factor ≡ generator },
    ghost modulus_is: { row_step.modulus ≡ modulus },
    ghost stride_is: { W.residue arithmetic.now stride ≡ generator ^ (index - 1) % modulus },
    ghost ratio_is: { W.residue arithmetic.now ratio ≡ 2 ^ (index - 1) % modulus },
    ghost eighth_is: { W.residue arithmetic.now eighth ≡ W.residue arithmetic.now ratio ^ 8 % modulus },
    ghost sixteenth_is: { W.residue arithmetic.now sixteenth ≡ W.residue arithmetic.now eighth * W.residue arithmetic.now eighth % modulus },
}

impl<'a, W: Arithmetic> Rows<'a, W> {
    pub(crate) fn new(share: &Share<'_, 'a, W>, row_length: u32) -> Rows<'a, W>
        requires length { row_length ≡ row_length_of share.now.run.now.modulus }
        ensures arithmetic { result.arithmetic.now ≡ share.now.arithmetic.now }
        ensures index { result.index ≡ share.now.run.now.index }
        ensures modulus { result.modulus ≡ share.now.run.now.modulus }
        ensures generator { result.generator ≡ share.now.run.now.generator }
    {
        let arithmetic = share.arithmetic;
        let run = share.run;
        let exponent = run.index - 1;
        let ratio = raise(arithmetic, arithmetic.bring_in(2), exponent);
        let eighth = raise(arithmetic, ratio, 8);
        Rows {
            arithmetic,
            index: run.index,
            modulus: run.modulus,
            generator: run.generator,
            row_length,
            row_step: Multiplier::new(run.generator, run.modulus),
            stride: raise(arithmetic, arithmetic.bring_in(run.generator), exponent),
            ratio,
            eighth,
            sixteenth: arithmetic.mul(eighth, eighth),
        }
    }
}
