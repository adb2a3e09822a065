ghost use Rattle.mb_tree.specs.LocalLaws.{PlaceKnown, FreeOfCounts, PlannedAlike, ActedAlike};

/// The inodes of a place of a path are there, on a sound tree.
pub fn place_known()
    ensures { PlaceKnown }
{}

/// The operation of a call that looks at no other session looks at no count of open files.
pub fn free_of_counts()
    ensures { FreeOfCounts }
{}

/// A call is planned alike for all sessions that it cannot tell apart.
pub fn planned_alike()
    ensures { PlannedAlike }
{}

/// The operation of a call fits and acts alike for all sessions that the call cannot tell apart.
pub fn acted_alike()
    ensures { ActedAlike }
{}
