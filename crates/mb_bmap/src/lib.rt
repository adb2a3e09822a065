//! Where the parts of a file stand on a V7 volume (filsys(5)): the way from an inode's thirteen
//! addresses through up to three index blocks to a part, the address at its end, a block hung on it,
//! and all that is missing on it taken from the free chain and hung. Every block is read from the
//! changes first and from the view otherwise, and asked for where neither has it. On any answer but
//! success `hang` leaves the changes as before, and `reach` may have made a part of the way: its
//! changes are for letting go then.
//!
//! `specs/Ways.antt` has the way to a part (`route_of`), which law `ways_lead` joins to the places of
//! the reference volume. `specs/Locating.antt` says what an address is, `specs/Hanging.antt` what it
//! means to hang a block, and `specs/Reaching.antt` what a made way is, over the steps of `mb_blocks`.
#![tactic(auto)]

mod addresses;
mod hangs;
mod laws;
mod reaches;
mod routes;
mod ways;

pub use addresses::{Located, address, address_at};
pub use hangs::hang;
pub use laws::ways_lead;
pub use mb_alloc::Hung;
pub use reaches::{Reached, reach};
pub use routes::Route;
pub use ways::route;
