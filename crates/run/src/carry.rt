// Carrying a run on, its terms taken one by one.
ghost use Rattle.run.specs.Calls.{Shared, carry_causes};

use crate::progress::Progress;
use crate::share::{Share, try_terms};
use crate::state::Run;
use arithmetic::{Arithmetic, Refusal};

// the most terms that one call takes
pub const LARGEST_SHARE: u32 = 1048576;

impl Run {
    // Takes the smaller of the terms asked for and the terms left, and reports how many.
    pub fn carry_on<W: Arithmetic>(&mut self, arithmetic: &W, terms: u32) -> Result<u32, Refusal>
        ensures shared { Shared (carry_causes self.old (W.modulus arithmetic.now) terms) terms self.old self.new result }
    {
        self.try_arithmetic(arithmetic)?;
        try_terms(terms)?;
        let terms = self.share_of(terms)?;
        let progress = self.progress;
        let share = Share {
            run: self,
            arithmetic,
            terms,
        };
        let reached = match progress {
            Progress::Direct(from) => share.take_direct(from),
            Progress::Doubling(from) => share.take_doubling(from),
        };
        self.move_on(terms, reached);
        Ok(terms)
    }
}
