ghost use Rattle.mb_moves.specs.TreeLaws.{RoomIsThere, CostWithMore, ChangedThere, ChangedNowhere, NodesPut, NameLost, OpenLost, EnteredFirst, EnteredLast, EmptiedFirst};

/// The nodes of a stored tree fit its volume.
pub fn room_is_there()
    ensures { RoomIsThere }
{}

/// A node more costs no less.
pub fn cost_with_more()
    ensures { CostWithMore }
{}

/// A node changed where it is there.
pub fn changed_there()
    ensures there { ChangedThere }
    ensures nowhere { ChangedNowhere }
    ensures put { NodesPut }
{}

/// Inodes that lost a name or an open file.
pub fn nodes_lost()
    ensures name { NameLost }
    ensures opened { OpenLost }
{}

/// A name's slot entered or emptied.
pub fn slots_entered()
    ensures first { EnteredFirst }
    ensures last { EnteredLast }
    ensures emptied { EmptiedFirst }
{}
