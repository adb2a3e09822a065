ghost use Rattle.std.specs.Prelude.{◌≡◌};
ghost use Rattle.mb_plan.specs.Fires.{is_meant, rule_fires, same_kind};

use mb_edge::{Crossing, Damage};
use mb_kinds::Kind;

/// A rule of a fault plan: the call of that caller with that place in its caller's own list, from 1, is
/// struck at its fault points of that kind whose number, from 1, is above `skip` and at most `skip` plus
/// `times`. A `times` of 0 strikes nothing.
#[derive(Drop)]
pub struct Rule {
    pub caller: u8,
    pub ordinal: u32,
    pub kind: Kind,
    pub skip: u32,
    pub times: u32,
    /// What is done where the rule fires.
    pub damage: Damage,
}

fn is_same(first: Kind, second: Kind) -> bool
    ensures { result ≡ same_kind first second }
{
    first == second
}

impl Rule {
    /// Whether a crossing is one of the rule's call and kind.
    fn means(&self, at: &Crossing) -> bool
        ensures { result ≡ is_meant self.now at.now }
    {
        self.caller == at.caller && self.ordinal == at.ordinal && is_same(self.kind, at.kind)
    }

    /// Whether the rule fires at a crossing.
    pub fn fires_at(&self, at: &Crossing) -> bool
        ensures { result ≡ rule_fires self.now at.now }
    {
        self.means(at) && self.skip < at.nth && at.nth - self.skip <= self.times
    }
}
