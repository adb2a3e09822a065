ghost use Rattle.std.specs.Prelude.{◌≡◌};

use crate::lists::Fails;

/// Counts the calls of one kind and says which of them are to fail, numbered from 1.
#[derive(Drop)]
pub struct Schedule {
    pub made: u64,
    pub fails: Fails,
}

impl Schedule {
    ghost use Rattle.mb_edge.specs.Schedule.{after_call, is_due};

    /// Begins before the first call.
    pub fn new(fails: Fails) -> Schedule
        ensures { result ≡ record { made = 0; fails = fails } }
    {
        Schedule { made: 0, fails }
    }

    /// Counts a call, and answers whether it is to fail.
    pub fn next_fails(&mut self) -> bool
        ensures due { result ≡ is_due self.old }
        ensures next { self.new ≡ after_call self.old }
    {
        self.made = self.made.saturating_add(1);
        self.fails.as_slice().contains(&self.made)
    }
}
