//! The printed text of the program: the transcript of a history, the lines at the end of a run, and
//! the causes why a job is refused.
//!
//! `specs/Transcript.antt` says what a history's text is, for any number of callers, and what the
//! lines at the end are; `specs/Causes.antt` says how a cause is printed. Each function gives exactly
//! that.
#![tactic(auto)]

mod causes;
mod numerals;
mod places;
mod replies;
mod transcripts;

pub use causes::text_of_cause;
pub use transcripts::{failed_line, last_line, soak_line, transcript, transcript_with};
