//! Calls over a V7 file system with the reference model beside it: tools for tests. A `Pair` is a volume in memory and the
//! machine that opening it gives. A call begins with a view of no block on the volume, goes on whenever the blocks that it
//! asked for are gathered, and what it comes to is done to the volume, its caller's session and the counts of open files;
//! the machine is stepped beside, and has to answer alike. `reply_at_once` asks a call over all blocks. A call is asked again
//! where it met want of memory: so a test may run with any one of its allocations failing. What the bytes of the image show
//! is read by a decoder of these tools' own (`fields`, `marks` and `images`), without the file system and the checker.
#![tactic(auto)]

mod benches;
mod fields;
mod images;
mod marks;
mod pairs;

pub use benches::Answered;
pub use pairs::Pair;
