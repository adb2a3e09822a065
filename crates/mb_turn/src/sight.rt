use std::collections::LinkedList;
use std::snapshot::Snapshot;

// A caller, and the value as it saw it last.
pub struct LastSeen<T> {
    pub caller: u8,
    pub value: T,
}

// What a seat knows. It exists in the proofs alone: no value of it is ever made.
pub struct SeatView<T> {
    pub sights: LinkedList<LastSeen<T>>,
    pub holds: bool,
}

// What the table is told when it is made: how many callers there are, and the value at the start.
#[derive(Drop)]
pub struct Key<T> {
    pub callers: u8,
    pub first: Snapshot<T>,
}
