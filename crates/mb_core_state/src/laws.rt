ghost use Rattle.mb_core_state.specs.StateLaws.{CallEnteredAgain, CallEnteredNew, OperationReplayed};

use mb_cache::installs;
use mb_edge::Disk;
use mb_tables::counts_follow_operations;

/// An operation of the log that was done again is the core's event, with what that event asks: the file system's answer
/// over blocks of what is seen, changes installed as they are read, and counts of open files that follow.
pub fn replayed<F, D: Disk>()
    ensures { OperationReplayed F D D.told D.faults }
{
    installs();
    counts_follow_operations();
}

/// A call that went inside is the core's event, with what that event asks: one that was in flight entered, and a new one
/// began and entered.
pub fn entered<F, D: Disk>()
    ensures again { CallEnteredAgain F D }
    ensures new { CallEnteredNew F D }
{}
