ghost use Rattle.std.specs.Prelude.{◌≡◌, ℕ, Bool, List, Option, option_map};
ghost use Rattle.mb_edge.specs.declared.crossings.Crossing.{Crossing};
ghost use Rattle.mb_edge.specs.declared.strokes.Stroke.{Stroke};
ghost use Rattle.mb_edge.specs.Hooks.{AnswersTest, HasFaultCause, strokes_at, struck_by};

use crate::crossings::Crossing;
use crate::strokes::Damage;

/// What a fault injector answers at a fault point.
#[derive(Clone, Copy, Debug, PartialEq, Eq, Drop)]
pub enum Word {
    /// The call goes on.
    Go,
    /// The call is struck here.
    Fault,
}

/// A fault injector. `struck` is the crossing of its last `cross` where that answered a fault and nothing
/// otherwise, `strokes` the damage of that crossing, `test` the crossings at which it faults, where it tells
/// them, and `faults` counts its faults.
pub trait Hook {
    ghost struck: { Self → Option Crossing };

    ghost strokes: { Self → List Stroke };

    ghost test: { Self → Option (Crossing → Bool) };

    ghost faults: { Self → ℕ };

    /// Asks whether a call is struck at this crossing. It is where the test holds, where that is told.
    fn cross(&mut self, at: &Crossing) -> Word
        ensures struck { struck self.new ≡ struck_by result at.now }
        ensures test { test self.new ≡ test self.old }
        ensures answer { AnswersTest (test self.old) at.now result }
        ensures cause { HasFaultCause (faults self.old) (faults self.new) result };

    /// The damage of the fault that the last `cross` answered, and `None` exactly where it answered `Go` or
    /// none was made.
    fn damage(&self) -> Option<&Damage>
        ensures lent { option_map (λ damage. damage.now) result ≡ strokes_at (struck self.now) (strokes self.now) };
}
