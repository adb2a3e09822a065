ghost use Rattle.mb_folds.specs.Laws.{FoldedFindsFew, FoldedIsShort, FoldedLeads};
ghost use Rattle.mb_folds.specs.Worked.{WorkedFolds};

/// The folded list is carried out wherever the list is, to the same tree and the same counts of open files.
pub fn folded_leads()
    ensures { FoldedLeads }
{}

/// It finds no more open files on an inode on the way.
pub fn folded_finds_few()
    ensures { FoldedFindsFew }
{}

/// Folding makes no list longer.
pub fn folded_is_short()
    ensures { FoldedIsShort }
{}

/// Which operations become one, with which moment, and which stay two.
pub fn worked_folds()
    ensures { WorkedFolds }
{}
