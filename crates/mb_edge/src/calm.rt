ghost use Rattle.std.specs.Prelude.{◌≡◌, [], None, Some, option_map};
ghost use Rattle.mb_edge.specs.Hooks.{AnswersTest, HasFaultCause, nowhere, strokes_at, struck_by};
ghost use Rattle.mb_edge.specs.declared.hooks.Word.TheVariants.{Go};

use crate::crossings::Crossing;
use crate::hooks::{Hook, Word};
use crate::strokes::Damage;

/// The hook that never faults. Its test holds nowhere, and its count of faults is the constant 0.
#[derive(Clone, Copy, Debug, PartialEq, Eq, Drop)]
pub struct Calm;

impl Hook for Calm {
    ghost struck = { λ _. None };

    ghost strokes = { λ _. [] };

    ghost test = { λ _. Some nowhere };

    ghost faults = { λ _. 0 };

    fn cross(&mut self, _at: &Crossing) -> Word
        ensures struck { None ≡ struck_by result _at.now }
        ensures test { Some nowhere ≡ Some nowhere }
        ensures answer { AnswersTest (Some nowhere) _at.now result }
        ensures cause { HasFaultCause 0 0 result }
        ensures calm { result ≡ Go }
    {
        Word::Go
    }

    fn damage(&self) -> Option<&Damage>
        ensures lent { option_map (λ damage. damage.now) result ≡ strokes_at None [] }
        ensures none { result ≡ None }
    {
        None
    }
}
