ghost use Rattle.mb_cache.specs.CacheLaws.{SeenInLayers, InstalledReads, InstallMoves, InstallRaises, DamageOfPages};

/// What is seen of a block is its current page, else its checkpointed page, else the block of the disk.
pub fn seen_in_layers()
    ensures { SeenInLayers }
{}

/// What an install does: the changes are read over what was seen, each changed block has one stamp more, and no
/// block is changed without that.
pub fn installs()
    ensures reads { InstalledReads }
    ensures raises { InstallRaises }
    ensures moves { InstallMoves }
{}

/// A fault does to the current pages what it does to pages alone, whatever the counts of open files are.
pub fn damage_of_pages()
    ensures { DamageOfPages }
{}
