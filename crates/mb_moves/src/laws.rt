ghost use Rattle.mb_moves.specs.Laws.{NothingDone, OneAfterAnother, NothingChanged, ChangedInTurn, StoredAfter, NearBefore, StoredAtFirst, OperationDone, OperationRefused, FieldsAdvance, PartAdvances, HoleAdvances, GrowthAdvances, FileAdvances, DirectoryAdvances, ClearedAdvances, ErasedAdvances, SizeAdvances, SlotAdvances, CacheAdvances};

/// Steps in a row, and none.
pub fn steps_in_a_row()
    ensures nothing { NothingDone }
    ensures another { OneAfterAnother }
{}

/// Steps in a row of changes over an image.
pub fn changes_in_a_row()
    ensures nothing { NothingChanged }
    ensures turns { ChangedInTurn }
    ensures stored { StoredAfter }
    ensures near { NearBefore }
    ensures first { StoredAtFirst }
{}

/// Steps to the tree after an operation's effect do the operation; it is refused where its effect is.
pub fn operation_done()
    ensures done { OperationDone }
    ensures refused { OperationRefused }
{}

/// An inode's fields are set.
pub fn fields_advance()
    ensures { FieldsAdvance }
{}

/// The bytes of a part that is there are written.
pub fn part_advances()
    ensures { PartAdvances }
{}

/// A hole is filled with zeros.
pub fn hole_advances()
    ensures { HoleAdvances }
{}

/// A directory grows by slots.
pub fn growth_advances()
    ensures { GrowthAdvances }
{}

/// An empty file is made.
pub fn file_advances()
    ensures { FileAdvances }
{}

/// A directory is made.
pub fn directory_advances()
    ensures { DirectoryAdvances }
{}

/// A node that is looked at becomes an empty file.
pub fn cleared_advances()
    ensures { ClearedAdvances }
{}

/// A node that is looked at is gone.
pub fn erased_advances()
    ensures { ErasedAdvances }
{}

/// A file's size is set.
pub fn size_advances()
    ensures { SizeAdvances }
{}

/// A slot of a directory is written where it stands.
pub fn slot_advances()
    ensures { SlotAdvances }
{}

/// The cache of free inode numbers is written, and the tree stays.
pub fn cache_advances()
    ensures { CacheAdvances }
{}
