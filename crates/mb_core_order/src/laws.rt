ghost use Rattle.mb_core_order.specs.EventLaws.{CoreBegins, CallBegins, CallEnters, CallGathers, CallIsStale, CallIsLogged, CallLeaves, CallEnds, CallIsAnswered, CheckpointIsTaken, PageIsFlushed, FaultStrikes, FaultStrikesAgain, CallIsUnwound, PagesAreDropped, VolumeFails, VolumeIsRemounted, FilesAreReopened, RoomIsFree, OperationIsReplayed, VolumeResumes};

use mb_edge::Disk;

/// A core that begins over the swept volume is in order.
pub fn core_begins<F, D: Disk>()
    ensures { CoreBegins F D D.told D.faults }
{}

/// A core in order does not look at the cache's room.
pub fn room_is_free<F, D: Disk>()
    ensures { RoomIsFree F D D.told D.faults }
{}

/// A call that begins keeps a core in order.
pub fn call_begins<F, D: Disk>()
    ensures { CallBegins F D D.told D.faults }
{}

/// So does a call that enters, for the first time or again.
pub fn call_enters<F, D: Disk>()
    ensures { CallEnters F D D.told D.faults }
{}

/// So does a call that gathers blocks and tables.
pub fn call_gathers<F, D: Disk>()
    ensures { CallGathers F D D.told D.faults }
{}

/// So does a call that is answered that a copy is stale, from the fourth time on with the right to commit alone.
pub fn call_is_stale<F, D: Disk>()
    ensures { CallIsStale F D D.told D.faults }
{}

/// So does a call that is logged: what it was performed over is a part of what is seen, so its entry is the
/// model's step, and the view after the install is the volume after that step.
pub fn call_is_logged<F, D: Disk>()
    ensures { CallIsLogged F D D.told D.faults }
{}

/// So does a call that leaves with its entry.
pub fn call_leaves<F, D: Disk>()
    ensures { CallLeaves F D D.told D.faults }
{}

/// So does a call that ends without a step of the trace, in any stage.
pub fn call_ends<F, D: Disk>()
    ensures { CallEnds F D D.told D.faults }
{}

/// So does a call that ends with an entry that is not the model's step: the disk failed, two faults met the
/// call, or the volume failed.
pub fn call_is_answered<F, D: Disk>()
    ensures { CallIsAnswered F D D.told D.faults }
{}

/// So does a checkpoint.
pub fn checkpoint_is_taken<F, D: Disk>()
    ensures { CheckpointIsTaken F D D.told D.faults }
{}

/// So does a checkpointed page that is written back, or whose write failed.
pub fn page_is_flushed<F, D: Disk>()
    ensures { PageIsFlushed F D D.told D.faults }
{}

/// So does a fault on a running volume, whatever current pages and counts of open files it damages.
pub fn fault_strikes<F, D: Disk>()
    ensures { FaultStrikes F D D.told D.faults }
{}

/// So does a fault in a recovery.
pub fn fault_strikes_again<F, D: Disk>()
    ensures { FaultStrikesAgain F D D.told D.faults }
{}

/// So does a call that is unwound.
pub fn call_is_unwound<F, D: Disk>()
    ensures { CallIsUnwound F D D.told D.faults }
{}

/// So does the dropping of the dirty pages.
pub fn pages_are_dropped<F, D: Disk>()
    ensures { PagesAreDropped F D D.told D.faults }
{}

/// So does the giving up of the volume.
pub fn volume_fails<F, D: Disk>()
    ensures { VolumeFails F D D.told D.faults }
{}

/// So does the start of the file system on the disk.
pub fn volume_is_remounted<F, D: Disk>()
    ensures { VolumeIsRemounted F D D.told D.faults }
{}

/// So does the restoring of the open files.
pub fn files_are_reopened<F, D: Disk>()
    ensures { FilesAreReopened F D D.told D.faults }
{}

/// So does an operation of the log that is done again by any file system.
pub fn operation_is_replayed<F, D: Disk>()
    ensures { OperationIsReplayed F D D.told D.faults }
{}

/// So does the end of a recovery: what is seen is the volume of the present tree.
pub fn volume_resumes<F, D: Disk>()
    ensures { VolumeResumes F D D.told D.faults }
{}
