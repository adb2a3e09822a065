ghost use Rattle.mb_tree.specs.NameLaws.{EnlinkKept, DelinkKept, CreateKept, MakeDirKept, RemoveDirKept, OperationKept};

/// A name entered for an inode that is there keeps a sound tree sound.
pub fn enlink_kept()
    ensures { EnlinkKept }
{}

/// A name taken from a leaf keeps a sound tree sound, where the leaf stays or is dropped.
pub fn delink_kept()
    ensures { DelinkKept }
{}

/// A file made under a missing name keeps a sound tree sound.
pub fn create_kept()
    ensures { CreateKept }
{}

/// A directory made under a missing name keeps a sound tree sound.
pub fn make_dir_kept()
    ensures { MakeDirKept }
{}

/// A directory removed that has no names but its own two keeps a sound tree sound.
pub fn remove_dir_kept()
    ensures { RemoveDirKept }
{}

/// Each operation that fits keeps a sound tree sound.
pub fn operation_kept()
    ensures { OperationKept }
{}
