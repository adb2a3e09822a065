//! The event core of the restart layer, for up to eight callers: always in order.
//!
//! A `Core` is `mb_core_state`'s `Fields` with `mb_core_spec`'s `Right` as the invariant of its type. Each call is one
//! event, and two where a new call begins with it. What it makes of the core is that crate's equation (`mb_core_spec`'s `specs/Events.antt`, `specs/Recovery.antt`);
//! what an answer means is `mb_core_state`'s `Leaving`, `Strikes`, `Gathering` (`specs/Answers.antt`) and `Finishes`
//! (`specs/Finishing.antt`); and what a caller must know first is in `specs/Callings.antt`.
#![tactic(auto)]

mod beginning;
mod events;
mod readers;
mod recovering;
mod states;

pub use beginning::Refusal;
pub use events::Core;
pub use states::State;
