// The cells that a caller lends for one counted share.
ghost use Rattle.run.specs.Counting.{Zeroes};

// Holds lent cells, and clears them when it is let go, whichever way the call ends.
pub(crate) struct Guard<'a> {
    pub(crate) cells: &'a mut [u64; 256],
}

impl Drop for Guard<'_> {
    fn drop(self)
        ensures zeroes { Zeroes self.exit.0.now }
    {
        *self.cells = [0; 256];
        let Guard { cells: _ } = self;
    }
}
