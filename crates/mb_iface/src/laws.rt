ghost use Rattle.mb_iface.specs.NeedLaws.{WorkedNeed};
ghost use Rattle.mb_iface.specs.OpenCounts.{CountsTell};
ghost use Rattle.mb_iface.specs.OverlayLaws.{NoChangeKeeps, WrittenReads, OthersKept, PartUnderChanges, FoundWithinView};

/// What blocks read as under changes.
pub fn changes_cover()
    ensures none { NoChangeKeeps }
    ensures written { WrittenReads }
    ensures others { OthersKept }
{}

/// What a view under changes is a part of, and which blocks it finds.
pub fn views_under_changes()
    ensures part { PartUnderChanges }
    ensures within { FoundWithinView }
{}

/// The counts of open files tell the whole map.
pub fn counts_tell()
    ensures { CountsTell }
{}

/// A need's blocks are those of its run, and then its others.
pub fn worked_need()
    ensures { WorkedNeed }
{}
