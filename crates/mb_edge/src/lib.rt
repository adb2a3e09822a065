//! The edge to the outside: a source of bytes, a sink of bytes and a disk of blocks, as traits, and devices in
//! memory that keep them. Every call may fail. An object of the outside has a count of faults that never
//! falls, and answers an error only where that count rose in the same call, so a caller's claim about an
//! error is a claim about the count.
//!
//! A fault injector (`Hook`) is asked at each fault point and may strike the call there, with damage to the
//! memory of the file system. `Calm` is the one that never does.
//!
//! `specs/Causes.antt` says when a count rose, `specs/Transfers.antt` what a read and a write move, and
//! `specs/Blocks.antt` what a block read gives and a block written changes in an image. An object may tell
//! nothing of its content, and then nothing is said of it. `specs/Hooks.antt` says what a hook answers, and
//! `specs/Damage.antt` what the strokes of a fault leave.
#![tactic(auto)]

mod calm;
mod crossings;
mod disks;
mod faults;
mod hooks;
mod lists;
mod memory_disks;
mod memory_sinks;
mod memory_sources;
mod schedules;
mod sinks;
mod sources;
mod stores;
mod strokes;
mod transfers;

pub use calm::Calm;
pub use crossings::{Crossing, Crossings};
pub use disks::Disk;
pub use faults::Failed;
pub use hooks::{Hook, Word};
pub use lists::{Bytes, Fails};
pub use mb_kinds::NoMemory;
pub use memory_disks::{MemDisk, SureDisk};
pub use memory_sinks::MemSink;
pub use memory_sources::{MemSource, SureSource};
pub use schedules::Schedule;
pub use sinks::Sink;
pub use sources::Source;
pub use strokes::{Damage, Stroke};
pub use transfers::{ReadError, read_whole, write_whole};
