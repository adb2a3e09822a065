ghost use Rattle.mb_headline.specs.Laws.{BeginsForJob, BegunRuns, DrivesApart, DrivesKeepOrder, JobsAreFit, PathsAreRuns, PathsEnd, PathsFail, SoaksAreFit};

use mb_edge::Disk;
use mb_gen::generated_are_fit;

/// A job that a text writes has at most eight callers with letters of their own, whose calls are few enough to be counted; its rules
/// strike, at early crossings alone; and a core can be begun for it.
pub fn jobs_are_fit()
    ensures { JobsAreFit }
{}

/// So does each job that is generated from a number.
pub fn soaks_are_fit()
    ensures { SoaksAreFit }
{
    generated_are_fit();
}

/// A core that begins over a disk with what a job asks for is one that the driver may run the job over.
pub fn begins_for_job<F, D: Disk>()
    ensures { BeginsForJob F D D.told D.faults }
{}

/// What the driver of `mb_run` leaves is what any driver of a job's callers leaves, whichever of them it runs first.
pub fn drives_apart()
    ensures { DrivesApart }
{}

/// What that driver leaves keeps the job's order: that of its list, or that of its `order` as far as the callers' first calls go.
/// In list order the faults of the plan were taken, and by an order those where calls enter; by an order without faults the event
/// trace begins with the callers' first calls.
pub fn drives_keep_order<F, D: Disk>()
    ensures { DrivesKeepOrder F D D.told D.faults }
{}

/// A core that was begun for a job runs.
pub fn begun_runs<F, D: Disk>()
    ensures { BegunRuns F D D.told D.faults }
{}

/// What any driver leaves of such a core, and the end of a run after it, is a run of the job: one legal history, in which each
/// caller's calls stand once, in its order, and the fault records of the plan; and no checkpoint where none was due but those that
/// were asked for and the one at the end.
pub fn paths_are_runs<F, D: Disk>()
    ensures { PathsAreRuns F D D.told D.faults }
{}

/// A run that was settled is done, or the volume was given up; the image left is a volume of the tree at the last checkpoint.
pub fn paths_end<F, D: Disk>()
    ensures { PathsEnd F D D.told D.faults }
{}

/// Where the disk failed in the end of a run, it ended fewer calls than it had faults.
pub fn paths_fail<F, D: Disk>()
    ensures { PathsFail F D D.told D.faults }
{}
