//! How a file system is asked and made to act over blocks that somebody else holds: a view of
//! blocks, the changes that an operation makes to them, the counts of open files, queries with their
//! answers, and the trait of a file system's code. Nothing here waits, and only want of memory is
//! refused.
//!
//! `specs/Places.antt` says where a changed block stands in the list of the changes (`specs/Changed.antt` of
//! `mb_kinds`), `specs/Edits.antt` what a change of some bytes of a block does, `specs/Pairs.antt` what a
//! change of two blocks, of both or of none, `specs/Near.antt` for which blocks a query or an operation may
//! ask, `specs/Asking.antt` and `specs/Acting.antt` what its answers mean on a volume of the reference tree.
#![tactic(auto)]

mod change_lists;
mod edits;
mod laws;
mod open_counts;
mod others;
mod overlays;
mod pairs;
mod queries;
mod replies;
mod systems;
mod views;

pub use change_lists::Changes;
pub use edits::{Edited, edit, edit_both};
pub use laws::{changes_cover, counts_tell, views_under_changes, worked_need};
pub use open_counts::Opens;
pub use others::Others;
pub use overlays::{Over, seen};
pub use pairs::{hold_both, put_and_edit};
pub use queries::Query;
pub use replies::{Acted, Answer, Asked, Need};
pub use systems::FileSys;
pub use views::View;
