//! The job reader: from the bytes of a job's text to its callers, their calls, the plan of faults and
//! the order of the steps.
//!
//! `specs/Job.antt` says which job a text writes and, of the causes why it writes none, which is the
//! first; `job_of` gives exactly that. `specs/Calls.antt` is the table of the calls: each verb with what
//! it reads of the rest of its line. `specs/Keys.antt`, `specs/Lists.antt`, `specs/Rules.antt` and
//! `specs/Orders.antt` have the keys, the list of the calls, the faults and the order.
#![tactic(auto)]

mod callers;
mod calls;
mod descriptors;
mod exits;
mod jobs;
mod keys;
mod lists;
mod names;
mod nodes;
mod numbers;
mod orders;
mod ordinals;
mod paths;
mod reading;
mod rules;
mod strokes;
mod tables;
mod texts;
mod verbs;
mod words;

pub use jobs::{Caller, Job, JobCall, JobFault};
pub use reading::job_of;
pub use texts::Text;
