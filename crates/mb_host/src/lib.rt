//! The edge to the system: standard input as a source, standard output as a sink, a file as a disk. Each adapter keeps
//! a count of faults that it raises at each error of the system, and tells nothing of what the file or the pipe holds:
//! that these bytes are the ones of a real file is trusted, not proved.
//!
//! `StandIns` keeps an image from standing at one of descriptors 0 to 2 that was closed when the program started.
#![tactic(auto)]

mod faults;
mod files;
mod inputs;
mod outputs;
mod stand_ins;
mod words;

pub use files::FileDisk;
pub use inputs::InSource;
pub use outputs::OutSink;
pub use stand_ins::StandIns;
pub use words::{Word8, Words};
