// Where a share leaves the run.
ghost use Rattle.std.specs.Prelude.{◌≡◌, ◌+◌, ◌≤◌};
ghost use Rattle.run.specs.Calls.{Stands, left_of};
ghost use Rattle.run.specs.Places.{kind_of};
ghost use Rattle.run.specs.Reached.{Reached};

use crate::progress::Progress;
use crate::state::Run;

impl Run {
    // Moves on by so many terms, to the sum and the place that follow them.
    pub(crate) fn move_on(&mut self, terms: u32, reached: (u32, Progress))
        requires room { terms ≤ left_of self.old }
        requires reached { Reached self.old terms reached }
        ensures stands { Stands self.new (kind_of self.old.progress) self.old.index self.old.modulus self.old.generator (self.old.taken + terms) }
    {
        self.taken += terms;
        (self.sum, self.progress) = reached;
    }
}
