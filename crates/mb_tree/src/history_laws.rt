ghost use Rattle.mb_tree.specs.HistoryLaws.{CallersStay, FewOpens, HistoryCarriesOut, HistoryFindsFewOpens, OperationsAppend, CarriedOutSplits, CarriedOutAppends, CarriedOutOnce, CarriedOutGoesOn, WorkedOperations};
ghost use Rattle.mb_tree.specs.Sweep.{SweepIsRelease, NothingToSweep};

/// A machine has the same callers after a history.
pub fn callers_stay()
    ensures { CallersStay }
{}

/// Of `n` sessions at most `17 n` open files are on an inode.
pub fn few_opens()
    ensures { FewOpens }
{}

/// The operations of a legal history of calls on a valid machine fit and are not refused, one after
/// another, and lead from its tree and counts of open files to those of the machine after the history.
pub fn history_carries_out()
    ensures { HistoryCarriesOut }
{}

/// None of them finds more than 17 open files for each session on an inode.
pub fn history_finds_few_opens()
    ensures { HistoryFindsFewOpens }
{}

/// The operations of two histories in a row are those of the first and then those of the second.
pub fn operations_append()
    ensures { OperationsAppend }
{}

/// Where a list of operations is carried out, a front of it is, and so is the rest from there on.
pub fn carried_out_splits()
    ensures { CarriedOutSplits }
{}

/// Two lists of operations that are carried out in a row are carried out as one.
pub fn carried_out_appends()
    ensures { CarriedOutAppends }
{}

/// Operations lead to one tree and one table of open files.
pub fn carried_out_once()
    ensures { CarriedOutOnce }
{}

/// Where a list of operations is carried out, the next one can be once those before it were.
pub fn carried_out_goes_on()
    ensures { CarriedOutGoesOn }
{}

/// A worked example: a file held twice.
pub fn worked_operations()
    ensures { WorkedOperations }
{}

/// One release of all nameless files, with a table that counts just them, fits and makes the tree that
/// opening finds.
pub fn sweep_is_release()
    ensures { SweepIsRelease }
{}

/// Where no file is nameless, opening finds the tree as it is.
pub fn nothing_to_sweep()
    ensures { NothingToSweep }
{}
