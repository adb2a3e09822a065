ghost use Rattle.mb_program.specs.Completes.{CheckCompletes, MakesComplete, RunsComplete, SoaksComplete, SurvivorsComplete};

use mb_edge::Disk;
use mb_gen::generated_are_fit;
use mb_plan_laws::fires_at_most;

/// What the contract of `membrane` leaves of the ends of a run: with a job, a volume and no fault of the outside, the status
/// is 0, or 4 where more faults struck than the volume survives, or 6 for want of memory.
pub fn runs_complete<D: Disk>()
    ensures { RunsComplete D.told D.faults }
{}

/// Where the rules of the job's plan have at most as many times together as the volume survives faults, the status is 0 or 6.
pub fn survivors_complete<D: Disk>()
    ensures { SurvivorsComplete D.told D.faults }
{
    fires_at_most();
}

/// The same of a `mkfs` with the sizes of a volume.
pub fn makes_complete<D: Disk>()
    ensures { MakesComplete D.told D.faults }
{}

/// The same of a `check` of a volume.
pub fn check_completes<D: Disk>()
    ensures { CheckCompletes D.told D.faults }
{}

/// The same of a `soak` of a volume, which survives all faults of a generated job.
pub fn soaks_complete<D: Disk>()
    ensures { SoaksComplete D.told D.faults }
{
    fires_at_most();
    generated_are_fit();
}
