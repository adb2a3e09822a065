ghost use Rattle.std.specs.Prelude.{ℕ, ◌≤◌, List, length, Option, IfOk};
ghost use Rattle.mb_edge.specs.Causes.{HasCause};
ghost use Rattle.mb_edge.specs.Transfers.{Reads};

use crate::faults::Failed;

/// Where bytes come from. `left` are the bytes that it has still to give, where it tells them; `faults`
/// counts its faults.
pub trait Source {
    ghost left: { Self → Option (List ℕ) };

    ghost faults: { Self → ℕ };

    /// Reads at most `into.len()` bytes to the front of `into` and answers how many. It answers 0 for a
    /// buffer that is not empty exactly where no byte is left, and that is the end.
    fn read(&mut self, into: &mut [u8]) -> Result<usize, Failed>
        ensures bound { IfOk result (λ count. count ≤ length into.new) }
        ensures bytes { Reads (left self.old) (left self.new) result into.new }
        ensures cause { HasCause (faults self.old) (faults self.new) result };
}
