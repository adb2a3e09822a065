ghost use Rattle.mb_run.specs.Lengths.{RecoversSoon, StandsOn};

/// How many steps a recovery takes, over every core that keeps the contract of an event core: at most one for each caller and
/// each operation of the log, and four.
pub fn recovers_soon()
    ensures { RecoversSoon }
{}

/// What comes between two steps of a recovery may be any number of events, one after another: what stands after each stands
/// after all of them.
pub fn stands_on()
    ensures { StandsOn }
{}
