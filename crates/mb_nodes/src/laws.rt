ghost use Rattle.mb_nodes.specs.Laws.{StoredOf, VolumeOf, FieldsSet, PartPut, HoleFilled, FillRefused, DirectoryGrown, FileMade, DirectoryMade, Cleared, Erased, SizeSet, SlotSet, CacheWritten, SlotBytesSet, SlotsJoin, FreshIsVolume, WantedRefused, GrowRefused, MakeRefused};
ghost use Rattle.mb_nodes.specs.Worked.{SmallVolume};

/// A volume stores its tree, and a stored tree that is sound is a volume.
pub fn volume_is_stored()
    ensures stored { StoredOf }
    ensures volume { VolumeOf }
{}

/// An inode's fields are set.
pub fn fields_set()
    ensures { FieldsSet }
{}

/// The bytes of a part that is there are written.
pub fn part_put()
    ensures { PartPut }
{}

/// A hole is filled with zeros; it is refused where the free chain is too short, and then the tree would pass the capacity.
pub fn hole_filled()
    ensures filled { HoleFilled }
    ensures refused { FillRefused }
    ensures wanted { WantedRefused }
{}

/// A directory grows by slots.
pub fn directory_grown()
    ensures { DirectoryGrown }
{}

/// An empty file is made.
pub fn file_made()
    ensures { FileMade }
{}

/// A directory is made.
pub fn directory_made()
    ensures { DirectoryMade }
{}

/// A node becomes an empty file.
pub fn cleared()
    ensures { Cleared }
{}

/// A node is gone.
pub fn erased()
    ensures { Erased }
{}

/// A file's size is set.
pub fn size_set()
    ensures { SizeSet }
{}

/// A slot of a directory is written where it stands.
pub fn slot_set()
    ensures { SlotSet }
{}

/// The cache of free inode numbers is written, and the tree stays.
pub fn cache_written()
    ensures { CacheWritten }
{}

/// The bytes of slots, written in a block, are the slots.
pub fn slot_bytes()
    ensures one { SlotBytesSet }
    ensures many { SlotsJoin }
{}

/// A fresh image is a volume of the fresh tree.
pub fn fresh_is_volume()
    ensures { FreshIsVolume }
{}

/// A directory that cannot grow or be made for want of blocks is refused with ENOSPC.
pub fn directory_refused()
    ensures grown { GrowRefused }
    ensures made { MakeRefused }
{}

/// The free blocks, the inodes and the capacity of a fresh volume of 8 blocks.
pub fn worked_numbers()
    ensures { SmallVolume }
{}
