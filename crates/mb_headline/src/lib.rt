//! What the program promises of a run: a job that was run over a disk, by the driver of `mb_run` or by threads.
//!
//! `specs/Headline.antt` has the promise over a core and the job: one legal history of the volume's tree with each caller's
//! calls once and in its order, the fault records of the plan, and the image that is left; and, where one thread ran the job,
//! the order of the history. `begin_for` begins a core over a disk for a job,
//! `injectors_for` makes a fault injector for each of its callers. `laws.rt` has the laws that lead from there to the
//! promise (`specs/Laws.antt`), through a driver of the job's callers, to the end of the run: functions without a body, whose
//! contract is the law.
#![tactic(auto)]

mod beginning;
mod injectors;
mod laws;

pub use beginning::begin_for;
pub use injectors::{Injector, injectors_for};
pub use laws::{
    begins_for_job, begun_runs, drives_apart, drives_keep_order, jobs_are_fit, paths_are_runs,
    paths_end, paths_fail, soaks_are_fit,
};
