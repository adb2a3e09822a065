ghost use Rattle.mb_tree.specs.Laws.{AfterAppends, LegalSplits, LegalAppends, LegalGrows, RefusedStays, ServedByEffect, CostKept, SessionKept, SlotsAndLinksKept, BytesOrAttributesKept, DropKept, ReleaseKept};

/// The machine after two histories in a row is the one after the second, from the one after the first.
pub fn after_appends()
    ensures { AfterAppends }
{}

/// A front of a history is a history, and the rest is one of the machine after the front.
pub fn legal_splits()
    ensures { LegalSplits }
{}

/// Two histories in a row are one where each later entry may follow each earlier one.
pub fn legal_appends()
    ensures { LegalAppends }
{}

/// A history with one entry more.
pub fn legal_grows()
    ensures { LegalGrows }
{}

/// A refused call leaves the machine as it was.
pub fn refused_stays()
    ensures { RefusedStays }
{}

/// A call that is served changes the tree by the effect of its plan's operation alone.
pub fn served_by_effect()
    ensures { ServedByEffect }
{}

/// The files of a machine never hold more blocks than there are for them.
pub fn cost_kept()
    ensures { CostKept }
{}

/// A session change that fits keeps a session valid.
pub fn session_kept()
    ensures { SessionKept }
{}

/// A tree stays sound where each inode keeps its slots and its link count, and there is room.
pub fn slots_and_links_kept()
    ensures { SlotsAndLinksKept }
{}

/// An operation that touches bytes or attributes alone keeps a sound tree sound.
pub fn bytes_or_attributes_kept()
    ensures { BytesOrAttributesKept }
{}

/// A tree stays sound where inodes are dropped to which no used slot leads, and there is room.
pub fn drop_kept()
    ensures { DropKept }
{}

/// Releasing open files keeps a sound tree sound.
pub fn release_kept()
    ensures { ReleaseKept }
{}
