//! The numbers of a V7 volume, read from and written to bytes: words, longs and three-byte
//! addresses in the byte order of a PDP-11 (V7 filsys(5)). A reader gives the number that stands at
//! an offset; a writer leaves that number there and every other byte as it was. None is refused.
//!
//! The contracts cite `specs/Numbers.antt`; `specs/Fields.antt` says where each field of a volume's
//! blocks stands, for the crates above.
#![tactic(auto)]

mod laws;
mod readers;
mod writers;

pub use laws::{own_bytes, reads_back, worked_numbers, write_keeps_others, writes_back};
pub use readers::{addr_at, long_at, word_at};
pub use writers::{put_addr, put_long, put_word};
