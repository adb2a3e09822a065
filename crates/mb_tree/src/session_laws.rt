ghost use Rattle.mb_tree.specs.SessionLaws.{CountsFollow, ValidStays, BytesOrAttributesValid, ReleaseValid, OperationsFit, ValidKept};

/// The counts of open files after a call are those that its operation leaves.
pub fn counts_follow()
    ensures { CountsFollow }
{}

/// A call that is served keeps a machine valid where the next tree is sound and what the sessions use
/// is kept.
pub fn valid_stays()
    ensures { ValidStays }
{}

/// A call without an operation, or with one that touches bytes or attributes alone, keeps a machine
/// valid.
pub fn bytes_or_attributes_valid()
    ensures { BytesOrAttributesValid }
{}

/// A call that releases open files keeps a machine valid.
pub fn release_valid()
    ensures { ReleaseValid }
{}

/// The operation of a call's plan fits the tree and the counts of open files on which the call is
/// planned.
pub fn operations_fit()
    ensures { OperationsFit }
{}

/// A step with a lawful pick keeps a valid machine valid.
pub fn valid_kept()
    ensures { ValidKept }
{}
