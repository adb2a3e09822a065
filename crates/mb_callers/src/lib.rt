//! What the core keeps of each caller: its call in flight, the copies of what that call gathered, and what is taken
//! back of it.
//!
//! A contract sees a caller's state as a `CallerState` of `mb_core_spec`, the list of all as `Callers`, and what a call
//! gathered as a `PagesState`: `Pages` is the view over which the call is performed. Each method says in one equation
//! what becomes of a caller's state, in the words of the core's events: `goes_in`, `gathers_anew`, `taken_back`. What it
//! pinned is given back by one walk over its undo log. `gather` puts the same into the pages and into what is kept of the
//! call, all of it or nothing (`specs/Gathering.antt`), and `gathered` says what that comes to for the core and for who
//! drives the call. `stale_block` names the least block that was handed out and is not what is kept and seen, where block
//! 0 stands for the tables (`specs/Stale.antt`), and `least_stale_block` says what its answers tell.
//!
//! What a call looks at is much like what the calls before it looked at, so `Pages` remember that: `foreseen` names such
//! blocks before the call is performed first, and `foresee` adds them to what it asks for. Which blocks these are is a guess, of
//! which no contract speaks.
//!
//! Room is kept from call to call: pages, copies, undo log and pins are emptied and not dropped, and of a copy of the tables
//! that was given back the next one takes the room of the sessions, and the counts of open files as long as they are the same.
#![tactic(auto)]

mod caller_states;
mod callers;
mod gathering;
mod laws;
mod pages;
mod tables;
mod undoing;

pub use caller_states::CallerState;
pub use callers::Callers;
pub use laws::{gathered, least_stale_block};
pub use pages::Pages;
pub use tables::TablesNow;
