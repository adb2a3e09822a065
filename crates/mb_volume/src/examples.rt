ghost use Rattle.mb_volume.specs.Examples.{WorkedFirsts};

/// Which counts of faults a call with a plain reply may leave, where the fault injector's test tells.
pub fn worked_firsts()
    ensures { WorkedFirsts }
{}
