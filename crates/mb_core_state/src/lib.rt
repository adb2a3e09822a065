//! The code of a core of many callers: for each event one equation.
//!
//! A contract sees `Fields` as `mb_core_spec`'s `CoreState`. What an event makes of it is that crate's equation
//! (`specs/Events.antt`, `specs/Recovery.antt`), with the room that is left (`with_room`). What each
//! answer means, and when it comes, is `Enters` (`specs/Entering.antt`), `Leaving`, `Strikes` and `Gathering`
//! (`specs/Answers.antt`), `Finishes` (`specs/Finishing.antt`), and of the steps of a recovery that read `FailsStep` and
//! `IsReplayed` (`specs/Redoing.antt`). The type says nothing of its order: what a core in order knows, an event requires.
#![tactic(auto)]

mod acting;
mod answers;
mod ending;
mod entering;
mod fields;
mod finishing;
mod flight_rooms;
mod gathering;
mod laws;
mod logging;
mod opening;
mod readers;
mod recovering;
mod redoing;
mod striking;

pub use answers::{Enter, Fault, Finished, Gathered, Left, Phase};
pub use fields::Fields;
pub use laws::{entered, replayed};
