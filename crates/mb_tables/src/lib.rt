//! The tables of a core: the callers' sessions as they are and as they were at the last checkpoint, the table of open
//! files, and a stamp that rises with each change of them that another call could see.
//!
//! A contract sees `Tables` as `mb_core_spec`'s `LiveTables`. What a call that is logged makes of them is `tables_after`,
//! and what a fault leaves of the counts is `counts_damaged` (`specs/Follows.antt`). The laws by which a caller ties them to
//! the reference model stand in `specs/TableLaws.antt`: the counts follow the effects of operations exactly where none of
//! them is 2^32 - 1, the greatest, at which a count stays.
#![tactic(auto)]

mod counting;
mod laws;
mod tables;

pub use counting::counts_of;
pub use laws::{counts_follow_operations, damage_of_counts, tables_move};
pub use tables::Tables;
