ghost use Rattle.mb_layout.specs.Addresses.{AddressesInArea};
ghost use Rattle.mb_layout.specs.InodePlaces.{PlacesBelow, InodesInList, InodesApart};
ghost use Rattle.mb_layout.specs.LayoutLaws.{SuperReadsBack, ChainReadsBack, DinodeReadsBack, SlotReadsBack, IndexReadsBack, SuperWritesBack, ChainWritesBack, DinodeWritesBack, SlotWritesBack, IndexWritesBack, DinodeKeepsOthers, SlotKeepsOthers, IndexKeepsOthers, DinodeWritten};

/// What was written reads back.
pub fn reads_back()
    ensures super_block { SuperReadsBack }
    ensures chain { ChainReadsBack }
    ensures dinode { DinodeReadsBack }
    ensures slot { SlotReadsBack }
    ensures index { IndexReadsBack }
{}

/// What was read, written where it stood, changes nothing.
pub fn writes_back()
    ensures super_block { SuperWritesBack }
    ensures chain { ChainWritesBack }
    ensures dinode { DinodeWritesBack }
    ensures slot { SlotWritesBack }
    ensures index { IndexWritesBack }
{}

/// A write leaves every other place of the block as it reads.
pub fn keeps_others()
    ensures dinode { DinodeKeepsOthers }
    ensures slot { SlotKeepsOthers }
    ensures index { IndexKeepsOthers }
{}

/// Where an inode was written, it has the written fields and addresses, and the seven others of its
/// block have those that they had.
pub fn inode_written()
    ensures { DinodeWritten }
{}

/// An inode's addresses are read from its area alone.
pub fn addresses_in_area()
    ensures { AddressesInArea }
{}

/// Where the inodes stand: each in the i-list at one of eight places, no two at the same.
pub fn inode_places()
    ensures below { PlacesBelow }
    ensures within { InodesInList }
    ensures apart { InodesApart }
{}
