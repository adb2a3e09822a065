ghost use Rattle.mb_core_spec.specs.Examples.{RefusedTraces, WorkedCounts, WorkedFloor, WorkedLogs, WorkedLogsOf, WorkedNumbers, WorkedRecords, WorkedTraces};

/// Two callers who create one file, and a call that is struck twice: what their traces come to.
pub fn worked_traces()
    ensures { WorkedTraces }
{}

/// Steps that a disciplined trace does not have.
pub fn refused_traces()
    ensures { RefusedTraces }
{}

/// Two faults of a call's own, and one that is not.
pub fn worked_records()
    ensures { WorkedRecords }
{}

/// The numbers and moments of two callers' first calls.
pub fn worked_numbers()
    ensures { WorkedNumbers }
{}

/// The ordinals of a caller's entries, and a call that quit.
pub fn worked_counts()
    ensures { WorkedCounts }
{}

/// A log of three writes, as they came and folded.
pub fn worked_logs()
    ensures folded { WorkedLogs }
    ensures entries { WorkedLogsOf }
{}

/// Who has the right to commit alone.
pub fn worked_floor()
    ensures { WorkedFloor }
{}
