ghost use Rattle.std.specs.Prelude.{◌≡◌, [], None, length, find, option_map};
ghost use Rattle.mb_plan.specs.Fires.{rule_fires};
ghost use Rattle.mb_plan.specs.declared.rules.Rule.{Rule};

use crate::hooks::PlanHook;
use crate::rules::Rule;
use mb_edge::Crossing;
use std::alloc::Global;
use std::marker::Model;

/// A fault plan. A contract sees the list of its rules.
#[derive(Drop)]
pub struct Plan {
    rules: Vec<Rule>,
}

impl Model for Plan {
    ghost use Rattle.std.specs.Prelude.{List};
    ghost use Rattle.mb_plan.specs.declared.rules.Rule.{Rule};

    ghost Value = { List Rule };

    ghost view = { λ a. a.rules.items };
}

impl Plan {
    /// The plan without rules, which strikes nothing; needs no memory.
    pub fn new(alloc: Global) -> Plan
        ensures { result ≡ [] }
    {
        Plan {
            rules: Vec::new(alloc),
        }
    }

    /// Takes over the rules; needs no memory.
    pub fn from_vec(rules: Vec<Rule>) -> Plan
        ensures { result ≡ rules.items }
    {
        Plan { rules }
    }

    /// The number of rules.
    pub fn len(&self) -> usize
        ensures { result ≡ length self.now }
    {
        self.rules.as_slice().len()
    }

    /// The rules.
    pub fn as_slice(&self) -> &[Rule]
        ensures { result.now ≡ self.now }
    {
        &self.rules
    }

    /// The fault injector that goes by this plan, before its first fault; needs no memory.
    pub fn hook(&self) -> PlanHook<'_>
        ensures { result ≡ record { rules = self.now; struck = None; strokes = []; faults = 0 } }
    {
        PlanHook::over(&self.rules)
    }
}
