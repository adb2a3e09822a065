ghost use Rattle.mb_plan_laws.specs.Firing.{FiresAtMost};

/// A plan fires at no more crossings, no two of which are the same, than its rules have `times` together.
pub fn fires_at_most()
    ensures { FiresAtMost }
{}
