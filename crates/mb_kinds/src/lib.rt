//! The plain values that every other crate speaks of: errors, calls, replies, the entries of a
//! history, fault records and the state that is kept of each caller, and the one error of want of
//! memory. Nothing here does work; a contract sees each list type as its list, so values are equal
//! exactly where their contents are.
//!
//! `specs/Own.antt` says which entries of a history are a caller's own, `specs/Image.antt` what an
//! image of a volume is, `specs/Changed.antt` how changed blocks lie over those of an image.
#![tactic(auto)]

mod bytes;
mod calls;
mod credentials;
mod entries;
mod errors;
mod faults;
mod laws;
mod no_memory;
mod replies;
mod sequence;

pub use bytes::{Name, Octets, Path};
pub use calls::{Call, How, Whence};
pub use credentials::{Cred, Creds};
pub use entries::{Entry, Flight, Stand};
pub use errors::Errno;
pub use faults::{FaultRecord, Kind, Records, Ticket};
pub use laws::own_appends;
pub use no_memory::NoMemory;
pub use replies::{Reply, Stat};
pub use sequence::Seq;
