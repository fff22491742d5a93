// A run of one index for one pair: which terms it has taken, and their sum.
ghost use Rattle.std.specs.Prelude.{◌≡◌, ◌≤◌, true};
ghost use Rattle.run.specs.Places.{kind_of, progress_after};
ghost use Rattle.theory.specs.Direct.{terms_of};
ghost use Rattle.theory.specs.Kinds.{partial_sum, can_run};
ghost use Rattle.theory.specs.Pairs.{Fit};

use crate::progress::Progress;

#[derive(Debug, Drop)]
pub struct Run {
    pub(crate) index: u32,
    pub(crate) modulus: u32,
    pub(crate) generator: u32,
    // how many terms are taken
    pub(crate) taken: u32,
    // the sum of the terms taken
    pub(crate) sum: u32,
    pub(crate) progress: Progress,
    ghost fit: { Fit index modulus generator },
    ghost usable: { can_run (kind_of progress) modulus index ≡ true },
    ghost within: { taken ≤ terms_of modulus },
    ghost summed: { sum ≡ partial_sum (kind_of progress) modulus generator index taken },
    ghost placed: { progress ≡ progress_after (kind_of progress) modulus generator index taken },
}
