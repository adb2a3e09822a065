ghost use Rattle.mb_mkfs.specs.Laws.{FreshIsMade, MadeIsVolume};
ghost use Rattle.mb_mkfs.specs.Worked.{SmallIsMade};

/// A fresh volume is laid by the steps that free a block, and is a volume of the tree that has the root alone.
pub fn fresh_is_volume()
    ensures made { FreshIsMade }
    ensures volume { MadeIsVolume }
{}

/// The numbers of the fresh volume of 100 blocks and 16 inodes, which is a volume.
pub fn worked_numbers()
    ensures { SmallIsMade }
{}
