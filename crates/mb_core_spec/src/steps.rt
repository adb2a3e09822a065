use mb_kinds::Ticket;

/// A step of the event trace.
#[derive(Clone, Copy, Debug, PartialEq, Eq, Drop)]
pub enum Step {
    /// A call entered, with this ticket.
    Entered(Ticket),
    /// Its entry came into the history.
    Logged(Ticket),
    /// Its copy of this block, or of the tables at block 0, was stale; it gathers anew.
    Stale(Ticket, u32),
    /// It left, with its entry.
    Left(Ticket),
    /// A fault struck, the number from 1.
    Struck(u32),
    /// The call was unwound after a fault.
    Unwound(Ticket),
    /// The dirty pages were dropped.
    Dropped,
    /// The file system was started anew on the disk.
    Remounted,
    /// The open files of the last checkpoint were restored.
    Reopened,
    /// The operation of the log with this number, from 1, was done again.
    Replayed(u32),
    /// The volume runs again.
    Resumed,
    /// A checkpoint was taken at so many entries.
    Sealed(u32),
    /// The volume failed after so many faults.
    Failed(u32),
}
