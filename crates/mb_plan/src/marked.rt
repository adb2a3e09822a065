ghost use Rattle.std.specs.Prelude.{◌≡◌, ◌<◌, find, option_map};
ghost use Rattle.mb_plan.specs.Fires.{rule_fires};
ghost use Rattle.mb_plan.specs.Marks.{slot_of};
ghost use Rattle.mb_plan.specs.declared.rules.Rule.{Rule};

use crate::rules::Rule;
use mb_edge::Crossing;
use std::marker::Model;

/// The slots that calls share: hardly more than two of the 100,000 calls of the longest job have one in common.
const SLOTS: usize = 65536;

/// The rules of a plan, with a mark in the slot of each call that one of them means. Most calls of a long job
/// have no rule: their slots have no mark, which one look tells, however many rules there are. A contract sees
/// the rules.
#[derive(Drop)]
pub(crate) struct MarkedRules<'a> {
    rules: &'a [Rule],
    marks: [bool; SLOTS],
}

impl<'a> Model for MarkedRules<'a> {
    ghost use Rattle.std.specs.Prelude.{List};
    ghost use Rattle.mb_plan.specs.Marks.{AreMarked};
    ghost use Rattle.mb_plan.specs.declared.rules.Rule.{Rule};

    ghost Value = { List Rule };

    ghost view = { λ a. a.rules.now };

    ghost invariant = { λ a. AreMarked a.rules.now a.marks };
}

/// The slot of a call. Those of one caller follow one another, and the callers of a job, 8 at most, begin at
/// even distances, so that few calls share one.
fn slot_of(caller: u8, ordinal: u32) -> usize
    ensures slot { result ≡ slot_of caller ordinal }
    ensures bound { result < 65536 }
{
    (usize::from(caller) * (SLOTS / 8) + ordinal as usize) % SLOTS
}

impl<'a> MarkedRules<'a> {
    pub(crate) fn over(rules: &'a [Rule]) -> MarkedRules<'a>
        ensures { result ≡ rules.now }
    {
        let mut marks = [false; SLOTS];
        for rule in rules {
            marks[slot_of(rule.caller, rule.ordinal)] = true;
        }
        MarkedRules { rules, marks }
    }

    /// The first rule that fires at a crossing.
    pub(crate) fn first_that_fires(&self, at: &Crossing) -> Option<&'a Rule>
        ensures { option_map (λ rule. rule.now) result ≡ find (λ (rule : Rule). rule_fires rule at.now) self.now }
    {
        if self.marks[slot_of(at.caller, at.ordinal)] {
            self.rules.iter().find(|rule| rule.fires_at(at))
        } else {
            None
        }
    }
}
