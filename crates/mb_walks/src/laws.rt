ghost use Rattle.mb_walks.specs.Worked.{WorkedKept};

/// What a volume keeps of block 1's cache of free numbers, and of an inode that comes free, on numbers that were worked out
/// by hand (V7 filsys(5)).
pub fn worked_kept()
    ensures { WorkedKept }
{}
