//! The blocks of a volume between two writes of a change: theory alone, no code that runs.
//!
//! A volume's blocks are held by inodes, free in the chain, or in hand: taken and not yet held, or let go and not
//! yet free. `specs/Laid.antt` says so (`IsLaid`), for any set of inodes. The steps are relations between the blocks
//! before and after, which the contracts of code promise: `IsTaken`, `IsFreed`, `AreFreed` (`specs/FreeLists.antt`),
//! `IsZeroed`, `SetsPlace`, `Reaches` (`specs/Growing.antt`), `IsRewritten` (`specs/Inodes.antt`). Each step keeps
//! blocks laid and conserves those that are accounted for (`specs/Conserved.antt`): a block that nothing leads to
//! stays as it is. `specs/Walk.antt` lists an inode's blocks, and any such list is as long as the inode's parts cost.
//! `specs/Rules.antt` has the rules on the sizes and the free chain alone, also for a chain that runs in a circle.
//!
//! The laws below are the theorems; their statements are in `specs/Laws.antt`. The lemma files of `proofs/` are
//! public, for the proofs of the crates above.
#![tactic(auto)]

mod laws;

pub use laws::{
    address_bytes, costs, dropped, freed, hung, inode_bytes, joined, keeps_rules, laid_for_fewer,
    let_go, next_in_chain, out_at_end, taken, walk_enumerates, way_made, worked_numbers, written,
};
