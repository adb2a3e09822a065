use mb_kinds::{Reply, Ticket};

/// The answer to a call that enters.
#[derive(Debug, Drop)]
pub enum EnterAnswer {
    /// The call's reply: it had its entry already, or it met two faults of its own, or the volume failed and it has an
    /// entry of that. Its flight ended.
    Done(Reply),
    /// A recovery is in progress. The call is in flight and waits.
    Shut,
    /// The call is inside, with this ticket.
    Inside(Ticket),
    /// There was no memory; nothing changed. It never comes in place of the reply of a call that has its entry.
    NoMemory,
}

/// What a step of a recovery came to.
#[derive(Clone, Copy, Debug, PartialEq, Eq, Drop)]
pub enum StepAnswer {
    /// No recovery is in progress; nothing changed.
    Idle,
    /// The call with this ticket was unwound: its pins, its copies, its reserved descriptor and the right to commit
    /// alone were given back.
    Unwound(Ticket),
    /// So many faults struck, one more than the limit: the volume has failed for good.
    Failed { faults: u32 },
    /// The dirty pages were dropped.
    Dropped,
    /// The file system was started anew on the disk.
    Remounted,
    /// The open files of the last checkpoint were restored.
    Reopened,
    /// The operation of the log with this number, from 1, was done again.
    Replayed(u32),
    /// The volume runs again.
    Resumed,
    /// A fault struck the recovery, which begins anew; so many have struck by now, at most the limit.
    Again { faults: u32 },
    /// The disk failed: its count of faults rose. The recovery stands where it stood, and the call that ran the step
    /// has the entry `Device`.
    Device,
    /// There was no memory; the recovery stands where it stood.
    NoMemory,
}
