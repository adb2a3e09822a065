//! Pages of 512 bytes in rings, and spare pages. A ring is a list of pages, which are linked by raw pointers in a circle,
//! so that a page leaves its ring, and a whole ring joins another or the spare pages, in a fixed number of link writes.
//!
//! Contracts see a [`Rings`] as `Shelf`: the rings as lists of pages, the number of spare pages, and the count of link
//! writes. Each page has a place, and a [`Token`] is the place of one page. What is known of the other tokens stays known
//! through each call: `SameAt` says so. Only [`Rings::new`] and [`Rings::reserve`] take memory, and only they are refused.
//! Each page is freed once, when its `Rings` ends. `Rings` and `Token` may go to another thread.
#![tactic(auto)]

mod boxes;
mod links;
mod node;
mod nodes;
mod rings;
mod token;

pub use mb_kinds::NoMemory;
pub use rings::Rings;
pub use token::Token;
