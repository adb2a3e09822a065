ghost use Rattle.std.specs.Prelude.{◌≡◌, ◌<◌, length, Decides, IfSome, IfNone};
ghost use Rattle.mb_core_spec.specs.Faults.{IsOwn};
ghost use Rattle.mb_journal.specs.Faults.{HasNoOwn, IsNextOwn, TellsTwice};

use crate::journals::Journal;
use mb_kinds::{FaultRecord, Kind};

impl Journal {
    /// The numbers, from 1, of the first two faults that struck a call of its own: when it entered, gathered or finished.
    /// `None` exactly where fewer than two did.
    pub fn own_faults(&self, caller: u8, ordinal: u32) -> Option<(u32, u32)>
        requires { length self.now.records < 4294967296 }
        ensures { TellsTwice self.now.records caller ordinal result }
    {
        let records = self.records();
        let Some(first) = next_own(records, caller, ordinal, 0) else {
            return None;
        };
        let Some(second) = next_own(records, caller, ordinal, first) else {
            return None;
        };
        Some((first, second))
    }
}

/// The least number above one, from 1, of a fault of the call's own.
fn next_own(records: &[FaultRecord], caller: u8, ordinal: u32, above: u32) -> Option<u32>
    requires { length records.now < 4294967296 }
    ensures some { IfSome result (λ number. IsNextOwn records.now caller ordinal above number) }
    ensures none { IfNone result (HasNoOwn records.now caller ordinal above (length records.now)) }
{
    for at in above as usize..records.len() {
        if is_own(&records[at], caller, ordinal) {
            return Some(at as u32 + 1);
        }
    }
    None
}

/// Whether a fault is one of that call's own.
fn is_own(fault: &FaultRecord, caller: u8, ordinal: u32) -> bool
    ensures { Decides result ((fault.now.caller ≡ caller) × (fault.now.ordinal ≡ ordinal) × IsOwn fault.now.kind) }
{
    fault.caller == caller && fault.ordinal == ordinal && counts(fault.kind)
}

/// Whether a fault of this kind counts as its call's own.
fn counts(kind: Kind) -> bool
    ensures { Decides result (IsOwn kind) }
{
    match kind {
        Kind::Enter | Kind::Gather | Kind::Finish => true,
        Kind::Leave | Kind::Remount | Kind::Replay => false,
    }
}
