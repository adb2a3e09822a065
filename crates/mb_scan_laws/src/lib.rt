//! The scan of a volume against the definition of a volume: theory alone, no code that runs.
//!
//! `mb_rules` says what the scan tests, in its order. Here it is proved that the scan finds nothing exactly where the
//! image is a volume (`accepts`, `accepted`), and that the volume's tree is then the one that the bytes show
//! (`tree_shown`). The way there is part by part. Parts 1 to 3 (super-block, free chain, inodes with their addresses)
//! say that the tree is stored, that modes name the kinds of bodies, and that sizes are in range: `IsShown` of
//! `specs/Shown.antt`. Part 5 says rules 10 to 12 of each directory's slots, and part 6 rules 13 and 14. The addresses
//! that are met in the files number what the tree costs (`files_cost`), and with the free blocks they number the
//! capacity (`capacity_met`).
//!
//! The laws' statements are in `specs/Laws.antt`. The lemma files of `proofs/` are public, for the proofs of the
//! crates above.
#![tactic(auto)]

mod laws;

pub use laws::{
    accepted, accepts, capacity_met, files_cost, parents_accept, slots_accept, stored_walks,
    stores, tree_shown,
};
