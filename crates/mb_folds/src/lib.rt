//! The folded operation log: theory alone, no code that runs.
//!
//! A list of operations that a recovery does again is folded before it: what was written right behind another write
//! becomes one write, and of attributes that were set twice in a row the later ones stand (`specs/Folded.antt`). Here
//! it is proved that the folded list is carried out wherever the list is, to the same tree and the same counts of open
//! files, and that nothing is refused on the way (`folded_leads`).
//!
//! The laws' statements are in `specs/Laws.antt`, worked lists in `specs/Worked.antt`.
#![tactic(auto)]

mod laws;

pub use laws::{folded_finds_few, folded_is_short, folded_leads, worked_folds};
