use crate::sequence::Seq;

/// The kinds of fault points at which a fault injector is asked. `Remount` and `Replay` lie within a
/// recovery.
#[derive(Clone, Copy, Debug, PartialEq, Eq, Drop)]
pub enum Kind {
    Enter,
    Gather,
    Finish,
    Leave,
    Remount,
    Replay,
}

/// A fault that was taken: whose call it struck, the call's place in that caller's list, from 1, the
/// kind of the fault point, and which crossing of that kind in that call it was, from 1.
#[derive(Clone, Copy, Debug, PartialEq, Eq, Drop)]
pub struct FaultRecord {
    pub caller: u8,
    pub ordinal: u32,
    pub kind: Kind,
    pub nth: u32,
}

/// Fault records, in the order in which they were taken.
pub type Records = Seq<FaultRecord>;

/// Names a call in flight together with the incarnation of the volume in which it entered. `moment`
/// is the call's.
#[derive(Clone, Copy, Debug, PartialEq, Eq, Drop)]
pub struct Ticket {
    pub caller: u8,
    pub ordinal: u32,
    pub incarnation: u32,
    pub moment: u32,
}
