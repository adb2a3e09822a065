//! The operations of a V7 file system (filsys(5), dir(5)) over a view of blocks: fields of an inode set,
//! names entered and taken out, directories made and removed, files opened and let go. Each says which
//! blocks it changes, or asks for blocks that the view lacks; it holds nothing and never waits.
//!
//! `specs/Performing.antt` says what each promises: on a volume of the reference tree its answer is that
//! of the tree (`Acts` of `mb_iface`). `V7` is the file system itself: all queries and all operations.
#![tactic(auto)]

mod attributes;
mod creates;
mod directories;
mod holds;
mod links;
mod places;
mod releases;
mod removes;
mod v7;

pub use attributes::{set_mode, set_owner, set_times};
pub use creates::create;
pub use directories::make_dir;
pub use holds::hold;
pub use links::{delink, enlink};
pub use releases::release;
pub use removes::remove_dir;
pub use v7::{V7, perform};
