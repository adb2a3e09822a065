ghost use Rattle.std.specs.Prelude.{ℕ, ◌≡◌, ◌<◌, ◌≤◌, List, length, Option, IfOk};
ghost use Rattle.mb_edge.specs.Causes.{Rose, HasCause};
ghost use Rattle.mb_edge.specs.Transfers.{Writes};

use crate::faults::Failed;

/// Where bytes go to. `taken` are the bytes that it took, where it tells them; `faults` counts its faults.
pub trait Sink {
    ghost taken: { Self → Option (List ℕ) };

    ghost faults: { Self → ℕ };

    /// Takes a front of `from` and answers its length. It answers 0 for a piece that is not empty only where
    /// its count of faults rose; a write that fails takes nothing.
    fn write(&mut self, from: &[u8]) -> Result<usize, Failed>
        ensures bound { IfOk result (λ count. count ≤ length from.now) }
        ensures bytes { Writes (taken self.old) (taken self.new) result from.now }
        ensures stuck { IfOk result (λ count. count ≡ 0 → 0 < length from.now → Rose (faults self.old) (faults self.new)) }
        ensures cause { HasCause (faults self.old) (faults self.new) result };
}
