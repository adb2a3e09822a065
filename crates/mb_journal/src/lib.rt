//! The journal of a core: the history of answered calls, the fault records, the event trace, and the log of the operations
//! since the last checkpoint.
//!
//! A contract sees a `Journal` as `mb_core_spec`'s `JournalState`, and each thing that is added to it is an equation of
//! that crate's (`specs/Events.antt`, `specs/Recovery.antt`). The room is a number for each of its four lists: so many
//! elements are added without memory. `reserve_entry` and the other calls named `reserve` take it, and beside them `fold`
//! alone, which folds the log before it is done again, may want memory: who reserved first can carry an event through.
#![tactic(auto)]

mod journals;
mod own_faults;

pub use journals::Journal;
