//! The text of a call: what a job's text has for it behind the caller's letter, in one form of the
//! several that read as the same call.
//!
//! `specs/CallText.antt` is that form, `specs/Writable.antt` says which calls a text can write, and
//! `specs/Laws.antt` that each of them is read back from its text, and that no text writes another.
//! `specs/Worked.antt` has some of each, worked out by hand.
#![tactic(auto)]

mod laws;
mod texts;
mod words;

pub use laws::{
    has_one_text, jobs_read_back, reads_back, reads_writable, worked_readings, worked_texts,
};
pub use texts::text_of_call;
