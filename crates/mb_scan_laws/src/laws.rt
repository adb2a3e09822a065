ghost use Rattle.mb_scan_laws.specs.Laws.{Accepted, Accepts, CapacityMet, FilesCost};
ghost use Rattle.mb_scan_laws.specs.Laws.{ParentsAccept, SlotsAccept, StoredWalks, Stores, TreeShown};

/// An image in which the scan finds nothing is a volume of the tree that its bytes show.
pub fn accepts()
    ensures { Accepts }
{}

/// The scan finds nothing in a volume.
pub fn accepted()
    ensures { Accepted }
{}

/// The tree of a volume is the one that its bytes show.
pub fn tree_shown()
    ensures { TreeShown }
{}

/// Where the scan goes through the super-block, the free chain and the inodes, the image holds the
/// tree that its bytes show.
pub fn stores()
    ensures { Stores }
{}

/// The scan goes through these three parts of any image that holds a tree.
pub fn stored_walks()
    ensures { StoredWalks }
{}

/// The addresses that the scan meets in the files number the cost of the tree.
pub fn files_cost()
    ensures { FilesCost }
{}

/// The addresses that it meets in all number the capacity.
pub fn capacity_met()
    ensures { CapacityMet }
{}

/// The scan goes through the slots exactly where each directory has those of a sound tree.
pub fn slots_accept()
    ensures { SlotsAccept }
{}

/// The scan goes through parents and link counts exactly where those of the tree are sound.
pub fn parents_accept()
    ensures { ParentsAccept }
{}
