//! The driver of a job: the calls of up to eight callers, made step by step over a core, by one thread.
//!
//! The core is a type parameter: `EventCore` has an event in each method, and its clauses are what a core has to keep.
//! They speak of a `Sight` (`specs/Sights.antt`), which is what a driver sees of a core; `sight_of`
//! (`specs/CoreSight.antt`) is the sight of `mb_core_spec`'s `CoreState`. What the events make of a sight is in
//! `specs/Events.antt` and `specs/Recovering.antt`.
//!
//! One step of a caller is `step`. Of what its caller did so far, of its ticket, pages and fault points `IsServedSoFar`
//! (`specs/Served.antt`) keeps the account, and `ActsAlone` says what the steps of one caller leave to the others; with both
//! every loop goes on and ends. Of a caller that acts alone, as in list order, `IsTallied` (`specs/Tallies.antt`) tells at
//! which fault points its call was, and that the faults there have their records. How many steps a recovery takes is in
//! `specs/Lengths.antt`: `recovers_soon` is the law, and `recover` makes such a row of steps. `drive` runs a job, in list order or by
//! its order, and leaves `IsDriven` (`specs/Drives.antt`). `settle` ends a run and leaves `IsSettled`
//! (`specs/Settling.antt`).
//!
//! `specs/Runs.antt` has what is to be said of a whole run over history, fault records, trace and job alone, and
//! `specs/Examples.antt` evaluates it on worked examples.
#![tactic(auto)]

mod answers;
mod call_index;
mod drives;
mod event_core;
mod examples;
mod laws;
mod orders;
mod progress;
mod runner;
mod runs;
mod settles;
mod steps;

pub use answers::{EnterAnswer, StepAnswer};
pub use call_index::{CallIndex, find_call};
pub use drives::{DriveEnd, Driven, drive};
pub use event_core::EventCore;
pub use examples::{
    worked_checkpoints, worked_entering, worked_faults, worked_late, worked_moments,
    worked_omitted, worked_orders, worked_stales, worked_taken, worked_undue,
};
pub use laws::{recovers_soon, stands_on};
pub use orders::run_order;
pub use progress::{Next, StepEnd, Went};
pub use runner::{At, Runner};
pub use runs::{recover, run_call, run_holder, run_in_order, turn};
pub use settles::{SettleEnd, Settled, settle};
pub use steps::{keep_way, step};
