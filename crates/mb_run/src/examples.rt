ghost use Rattle.mb_run.specs.Examples.{WorkedCheckpoints, WorkedEntering, WorkedFaults, WorkedLate, WorkedMoments, WorkedOmitted, WorkedOrders, WorkedStales, WorkedTaken, WorkedUndue};

/// Whose first moment is lower under an order.
pub fn worked_moments()
    ensures { WorkedMoments }
{}

/// How far an order tells who enters first, and who does.
pub fn worked_orders()
    ensures { WorkedOrders }
{}

/// Traces that begin as an order tells.
pub fn worked_entering()
    ensures { WorkedEntering }
{}

/// The fault records of a call that is struck twice.
pub fn worked_faults()
    ensures { WorkedFaults }
{}

/// Which faults of a plan a call took, and which it passed over.
pub fn worked_taken()
    ensures { WorkedTaken }
{}

/// When a checkpoint is due, and what stands behind one that was taken in time.
pub fn worked_checkpoints()
    ensures { WorkedCheckpoints }
{}

/// Which checkpoints of a trace were taken where none was due.
pub fn worked_undue()
    ensures { WorkedUndue }
{}

/// Which sync(2) of a trace have no checkpoint right behind.
pub fn worked_omitted()
    ensures { WorkedOmitted }
{}

/// How many entries stand behind the failed volume's answer that are not its.
pub fn worked_late()
    ensures { WorkedLate }
{}

/// How often a call was told that a copy is stale, and how often beyond the fourth time.
pub fn worked_stales()
    ensures { WorkedStales }
{}
