//! Directories and inodes of a V7 volume changed (filsys(5), dir(5)): fields of an inode set, a name
//! entered in a directory, which grows where it has no empty slot, a slot emptied, an empty file or a
//! directory made in a free inode. Each is a step of an operation, on the operation's changes over a
//! view of blocks; where a block is wanted that neither the changes nor the view have, it is asked for.
//! On any answer but success the changes may hold a part of the step, and are for letting go.
//!
//! What a step does is said of every volume of which the view is a part, also between two steps, where
//! a child still lacks its name or a name its link (`IsStored` of `mb_nodes`): under the changes the
//! next tree is stored, and what a volume keeps is kept (`AdvancesTo` of `mb_moves`). `specs/Fields.antt`
//! says it of fields, `specs/Entering.antt` of names, `specs/Making.antt` of new inodes, and
//! `specs/PickNeeds.antt` what is asked for before a number is picked.
#![tactic(auto)]

mod choices;
mod creates;
mod enters;
mod fields;
mod grows;
mod makes;
mod pick_needs;
mod rewrites;
mod slot_writes;
mod steps;

pub use choices::{Chosen, choose_number};
pub use creates::{create_in, make_directory_in};
pub use enters::{Entered, Gap, clear_slot, enter};
pub use fields::{FieldChange, set_fields};
pub use makes::{NewInode, make_directory, make_file};
pub use pick_needs::lacking_number;
pub use steps::Advanced;
