//! A list with room: it takes as many more elements without memory as it has room for, so that who
//! reserved room before a change can carry the change through.
//!
//! A contract sees a `Roomy` as its elements and a number, the room: `specs/Room.antt`.
#![tactic(auto)]

mod roomy;

pub use roomy::Roomy;
