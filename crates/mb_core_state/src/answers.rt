use mb_kinds::{Reply, Ticket};

/// The answer to a call that enters.
#[derive(Drop)]
pub enum Enter {
    /// The call's reply: it had its entry already, or has one now; its flight ended.
    Done(Reply),
    /// A recovery is in progress. The call is in flight and waits.
    Shut,
    /// The call is inside, with this ticket.
    Inside(Ticket),
    /// There was no memory; nothing changed.
    NoMemory,
}

/// The answer to a call that gathers.
#[derive(Clone, Copy, Drop)]
pub enum Gathered {
    /// The ticket is of another incarnation than the present one: `mine` is the ticket's, `now` the present one. Nothing
    /// changed.
    Skip { mine: u32, now: u32 },
    /// The disk failed: its count of faults rose. The call has the entry `Device`, and its flight ended.
    Device,
    /// There was no memory; nothing changed but the disk.
    NoMemory,
    /// What was asked for is pinned, kept with the call and in its pages.
    Done,
}

/// The answer to a call that finishes.
#[derive(Clone, Copy, Drop)]
pub enum Finished {
    /// The ticket is of another incarnation than the present one; nothing changed.
    Skip { mine: u32, now: u32 },
    /// Another call in flight, with this ticket, has the right to commit alone; nothing changed.
    Busy { holder: Ticket },
    /// The least block of the call's pages that is not kept with the same content and the present stamp; block 0 stands
    /// for the tables. What the call gathered and pinned is given back, and it gathers anew.
    Stale { block: u32 },
    /// There was no memory; nothing changed.
    NoMemory,
    /// The call has its entry.
    Logged,
}

/// The answer to a call that leaves.
#[derive(Drop)]
pub enum Left {
    /// The ticket is of another incarnation than the present one; nothing changed.
    Skip { mine: u32, now: u32 },
    /// The call's reply; its flight ended.
    Left(Reply),
}

/// What a fault came to.
#[derive(Clone, Copy, Drop)]
pub enum Fault {
    /// The ticket is of another incarnation than the present one; nothing changed.
    Skip { mine: u32, now: u32 },
    /// The fault has this number, from 1, and a recovery begins.
    Struck { number: u32 },
}

/// The next step of a recovery.
#[derive(Clone, Copy, Drop)]
pub enum Phase {
    /// None is in progress.
    Idle,
    /// A call inside is unwound.
    Unwind,
    /// The dirty pages are dropped, or the volume is given up.
    Drop,
    /// The file system is started anew.
    Remount,
    /// The open files are restored.
    Reopen,
    /// The operation of the log with this number, from 1, is done again.
    Replay(u32),
    /// The volume runs again.
    Resume,
}
