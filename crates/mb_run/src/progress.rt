use mb_iface::Need;
use mb_kinds::Ticket;

/// What one step of a caller came to.
#[derive(Clone, Copy, Debug, PartialEq, Eq, Drop)]
pub enum Went {
    /// The call was answered.
    Ended,
    /// The call goes on.
    On,
    /// The call was struck, or its ticket was of an earlier incarnation: it enters next.
    Back,
    /// A recovery is in progress; the call waits for it.
    Shut,
    /// The call with this ticket has the right to commit alone.
    Busy(Ticket),
    /// There was no memory. The call has no entry.
    NoMemory,
}

/// A fault point of entering or gathering, and what the call does there.
#[derive(Clone, Copy, Debug, PartialEq, Drop)]
pub enum Early {
    /// It enters.
    Enter,
    /// It gathers these blocks, with this ticket.
    Gather(Ticket, Need),
}

/// What the next fault point of a caller's call is.
#[derive(Clone, Copy, Debug, PartialEq, Drop)]
pub enum Next {
    /// That of entering or gathering, or none, where its reply is at hand.
    Early(Early),
    /// That of finishing or leaving.
    Late,
    /// There was no memory to tell.
    NoMemory,
}

/// What a step of a caller came to, with the recovery for which it waited.
#[derive(Clone, Copy, Debug, PartialEq, Eq, Drop)]
pub enum StepEnd {
    /// The call was answered.
    Ended,
    /// The call goes on.
    Again,
    /// This caller's call has the right to commit alone.
    Busy(u8),
    /// There was no memory. The call has no entry.
    NoMemory,
}
