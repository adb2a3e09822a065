//! The core for eight callers as contracts see it: its value, what each event makes of it, and when it is in order.
//! Definitions alone; the code stands above them, and `mb_core_order` proves that each event keeps a core in order.
//!
//! The value is `CoreState` (`specs/State.antt`), over the page cache's `CacheState`. What an event makes of it is one
//! equation: those of calls in `specs/Events.antt`, checkpoint, fault and the steps of a recovery in
//! `specs/Recovery.antt`, the beginning in `specs/Begun.antt`. When an event may come, and what its code owes beside the
//! equation, is a record for each in `specs/Conditions.antt` (over `specs/Owed.antt`); what a call comes to that is
//! performed over gathered blocks is in `specs/Performed.antt`.
//!
//! A core in order is `Right` (`specs/Right.antt`). Its parts are the history, the checkpoint and the log
//! (`specs/Histories.antt`), what is seen by where the volume stands (`specs/Seen.antt`), numbers and moments
//! (`specs/Numbers.antt`), the fault records (`specs/Faults.antt`), the event trace (`specs/Trail.antt` says which is
//! disciplined, `specs/Traced.antt` how it fits the core), the calls in flight and the right to commit alone
//! (`specs/Flights.antt`), their copies (`specs/Copies.antt`, over `specs/Kept.antt` of `mb_cache`), and room and bounds
//! (`specs/Bounds.antt`).
//! docs/CORE.md leads from each sentence to its definition.
#![tactic(auto)]

mod config;
mod examples;
mod ready;
mod stages;
mod steps;

pub use config::Config;
pub use examples::{
    refused_traces, worked_counts, worked_floor, worked_logs, worked_numbers, worked_records,
    worked_traces,
};
pub use ready::Ready;
pub use stages::Stage;
pub use steps::Step;
