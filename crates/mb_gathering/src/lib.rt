//! Blocks that are gathered as they are asked for: tools for tests that run a query or an operation to
//! its end over a volume in memory. `GatheredBlocks` is a view, which begins with no block (`nothing`), and
//! `gather` brings what a `Need` names from the blocks of a volume. `fresh` has those of a fresh
//! volume, and `without` leaves one out.
//!
//! `specs/Growing.antt` says what a view has that only grew.
#![tactic(auto)]

mod views;
mod volumes;

pub use views::{GatheredBlocks, gather, nothing, without};
pub use volumes::{SMALL, Size, disk_of, fresh};
