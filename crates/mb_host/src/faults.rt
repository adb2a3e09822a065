ghost use Rattle.std.specs.Prelude.{◌≤◌};
ghost use Rattle.mb_edge.specs.Causes.{Rose};

use mb_edge::Failed;

/// Counts an error of the system as a fault.
pub(crate) fn count_fault(faults: &mut u64) -> Failed
    ensures later { faults.old ≤ faults.new }
    ensures rose { Rose faults.old faults.new }
{
    *faults = faults.saturating_add(1);
    Failed
}
