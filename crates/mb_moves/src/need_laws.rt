ghost use Rattle.mb_moves.specs.NeedLaws.{StoredKeepsRules, ReadyFor, HadIsNear, PlaceIsNear, PartIsNear, ListIsNear, InodeIsNear, ReachingIsNear, MidwayAtNode, MidwayAtBirth, MidwayReached, MidwayWritten, MidwayIsNear, MakingRefused, TouchedIsLookedAt, TouchedIsNear};
ghost use Rattle.mb_moves.specs.Worked.{WorkedLooks};

/// The parts of a node of a stored tree can be reached.
pub fn ready_for()
    ensures rules { StoredKeepsRules }
    ensures ready { ReadyFor }
{}

/// What a step may ask for on a stored tree is near.
pub fn had_is_near()
    ensures had { HadIsNear }
    ensures place { PlaceIsNear }
    ensures part { PartIsNear }
    ensures list { ListIsNear }
    ensures inode { InodeIsNear }
    ensures reaching { ReachingIsNear }
{}

/// Within a step parts can be reached, and what may be asked for is near.
pub fn midway()
    ensures node { MidwayAtNode }
    ensures birth { MidwayAtBirth }
    ensures reached { MidwayReached }
    ensures written { MidwayWritten }
    ensures near { MidwayIsNear }
    ensures refused { MakingRefused }
{}

/// What is near to the inodes at which an operation looks is near to those that it touches.
pub fn touched_is_near()
    ensures looked_at { TouchedIsLookedAt }
    ensures near { TouchedIsNear }
{}

/// Inodes at which operations look.
pub fn worked_looks()
    ensures { WorkedLooks }
{}
