use crate::calls::Call;
use crate::faults::{Records, Ticket};
use crate::replies::Reply;

/// One call of a history with its answer. `ordinal` is the call's place in its caller's list, from 1;
/// `pick` is the number of the inode that the call made; `moment` is the time that the call wrote.
#[derive(Debug, Drop)]
pub struct Entry {
    pub caller: u8,
    pub ordinal: u32,
    pub call: Call,
    pub pick: Option<u16>,
    pub moment: u32,
    pub reply: Reply,
}

/// A call that has begun and has not ended. `ticket` is the last one that it was given, and
/// `answered` says that its entry is in the history.
#[derive(Debug, Drop)]
pub struct Flight {
    pub call: Call,
    pub ordinal: u32,
    pub moment: u32,
    pub ticket: Option<Ticket>,
    pub answered: bool,
}

/// What is kept of one caller: how many calls it began, its call in flight, and its fault records in
/// order.
#[derive(Drop)]
pub struct Stand {
    pub begun: u32,
    pub flight: Option<Flight>,
    pub struck: Records,
}
