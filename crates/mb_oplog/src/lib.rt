//! The operation log: the operations that were done since the last checkpoint, in order, each with the number of
//! the inode that it made. A recovery does them again.
//!
//! A contract sees an `Oplog` as the list of its operations and its room, the number of operations that it takes
//! without memory. `reserve` alone may want memory.
#![tactic(auto)]

mod oplogs;

pub use oplogs::{Logged, Oplog};
