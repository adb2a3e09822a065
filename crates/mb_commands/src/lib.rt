//! The commands of the program: which words are a command, and what `mkfs` does with a disk, up to the line that is
//! printed of it.
//!
//! `specs/Words.antt` says which lists of words are commands, `specs/Lines.antt` what the lines are, and
//! `specs/Makes.antt` what comes of `mkfs`.
#![tactic(auto)]

mod commands;
mod laws;
mod lines;
mod making;
mod numbers;

pub use commands::{Command, asks_threads, command_of, image_name};
pub use laws::worked_words;
pub use lines::{Line, made_line, refused_line, sound_line};
pub use making::{Made, make_volume};
