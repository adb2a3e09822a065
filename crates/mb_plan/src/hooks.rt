ghost use Rattle.std.specs.Prelude.{◌≡◌, Some, None, [], option_map};
ghost use Rattle.mb_edge.specs.Hooks.{AnswersTest, HasFaultCause, strokes_at, struck_by};
ghost use Rattle.mb_edge.specs.declared.hooks.Word.TheVariants.{Fault, Go};
ghost use Rattle.mb_plan.specs.Fires.{damage_at, fires};

use crate::marked::MarkedRules;
use crate::rules::Rule;
use mb_edge::{Crossing, Damage, Hook, Word};
use std::marker::Model;

/// The crossing that was struck last, and the damage of the rule that fired there.
#[derive(Clone, Copy, Drop)]
struct Blow<'a> {
    at: Crossing,
    damage: &'a Damage,
}

/// A fault injector that goes by a plan, which it borrows. It needs no memory, and has a table of 64 KiB in
/// itself: pass it by reference.
#[derive(Drop)]
pub struct PlanHook<'a> {
    rules: MarkedRules<'a>,
    blow: Option<Blow<'a>>,
    faults: u64,
}

impl<'a> Model for PlanHook<'a> {
    ghost use Rattle.std.specs.Prelude.{[], option_map};
    ghost use Rattle.std.specs.Option.{option_map_or};
    ghost use Rattle.mb_plan.specs.Hooked.{Hooked};

    ghost Value = { Hooked };

    ghost view = { λ a. record { rules = a.rules; struck = option_map (λ blow. blow.at) a.blow; strokes = option_map_or (λ blow. blow.damage.now) a.blow []; faults = a.faults } };
}

impl<'a> PlanHook<'a> {
    /// Before the first fault.
    pub(crate) fn over(rules: &'a [Rule]) -> PlanHook<'a>
        ensures { result ≡ record { rules = rules.now; struck = None; strokes = []; faults = 0 } }
    {
        PlanHook {
            rules: MarkedRules::over(rules),
            blow: None,
            faults: 0,
        }
    }
}

impl<'a> Hook for PlanHook<'a> {
    ghost struck = { λ hook. hook.struck };

    ghost strokes = { λ hook. hook.strokes };

    ghost test = { λ hook. Some (fires hook.rules) };

    ghost faults = { λ hook. hook.faults };

    fn cross(&mut self, at: &Crossing) -> Word
        ensures struck { self.new.struck ≡ struck_by result at.now }
        ensures test { Some (fires self.new.rules) ≡ Some (fires self.old.rules) }
        ensures answer { AnswersTest (Some (fires self.old.rules)) at.now result }
        ensures cause { HasFaultCause self.old.faults self.new.faults result }
        ensures strokes { self.new.strokes ≡ damage_at self.old.rules at.now }
        ensures rules { self.new.rules ≡ self.old.rules }
        ensures calm { result ≡ Go → self.new.faults ≡ self.old.faults }
    {
        match self.rules.first_that_fires(at) {
            Some(rule) => {
                self.blow = Some(Blow {
                    at: *at,
                    damage: &rule.damage,
                });
                self.faults = self.faults.saturating_add(1);
                Word::Fault
            }
            None => {
                self.blow = None;
                Word::Go
            }
        }
    }

    fn damage(&self) -> Option<&Damage>
        ensures lent { option_map (λ damage. damage.now) result ≡ strokes_at self.now.struck self.now.strokes }
    {
        self.blow.as_ref().map(|blow| blow.damage)
    }
}
