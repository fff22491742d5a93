// A share of a run, and what it is tested for, however it is taken.
ghost use Rattle.std.specs.Prelude.{◌≡◌, ◌+◌, ◌≤◌, min, true, false, not, ◌==◌, MatchResult};
ghost use Rattle.run.specs.Calls.{left_of, unfit_share};
ghost use Rattle.theory.specs.Direct.{terms_of};

use crate::carry::LARGEST_SHARE;
use crate::state::Run;
use arithmetic::{Arithmetic, Refusal};

// So many of the terms that a run has left, with an arithmetic of its modulus.
#[derive(Drop)]
pub(crate) struct Share<'r, 'a, W: Arithmetic> {
    pub(crate) run: &'r Run,
    pub(crate) arithmetic: &'a W,
    pub(crate) terms: u32,
    ghost same: { W.modulus arithmetic.now ≡ run.now.modulus },
    ghost room: { run.now.taken + terms ≤ terms_of run.now.modulus },
}

// Refuses a number of terms that no call takes.
pub(crate) fn try_terms(terms: u32) -> Result<(), Refusal>
    ensures cases { MatchResult result (λ _. unfit_share terms ≡ false) (λ e. (unfit_share terms ≡ true) × (e ≡ Refusal.Share)) }
{
    if terms < 1 || terms > LARGEST_SHARE {
        return Err(Refusal::Share);
    }
    Ok(())
}

impl Run {
    // Refuses an arithmetic of another modulus.
    pub(crate) fn try_arithmetic<W: Arithmetic>(&self, arithmetic: &W) -> Result<(), Refusal>
        ensures cases { MatchResult result (λ _. not (W.modulus arithmetic.now == self.now.modulus) ≡ false) (λ e. (not (W.modulus arithmetic.now == self.now.modulus) ≡ true) × (e ≡ Refusal.OtherArithmetic)) }
    {
        if arithmetic.modulus() != self.modulus {
            return Err(Refusal::OtherArithmetic);
        }
        Ok(())
    }

    // The smaller of the terms asked for and the terms left.
    pub(crate) fn share_of(&self, terms: u32) -> Result<u32, Refusal>
        ensures cases { MatchResult result (λ n. ((left_of self.now == 0) ≡ false) × (n ≡ min terms (left_of self.now))) (λ e. ((left_of self.now == 0) ≡ true) × (e ≡ Refusal.NoTermLeft)) }
    {
        let left = self.left();
        if left == 0 {
            return Err(Refusal::NoTermLeft);
        }
        Ok(terms.min(left))
    }
}
