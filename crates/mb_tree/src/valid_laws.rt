ghost use Rattle.mb_tree.specs.OneTree.{OneTree};
ghost use Rattle.mb_tree.specs.ValidLaws.{OpeningValid, HistoryValid};

/// What the callers find on a volume of a sound tree is a valid machine.
pub fn opening_valid()
    ensures { OpeningValid }
{}

/// A legal history of calls keeps a valid machine valid.
pub fn history_valid()
    ensures { HistoryValid }
{}

/// An image is a volume of at most one tree.
pub fn one_tree()
    ensures { OneTree }
{}
