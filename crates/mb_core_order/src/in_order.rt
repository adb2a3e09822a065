ghost use Rattle.mb_core_order.specs.Readings.{FreshIsPart, FloorIsNotStale, FourStalesAreAll, InsideFlies, OneIsInside, RecordsOfOthers, OthersStand, TablesByRule, EntersAtOnce, EntriesRise, OrdinalsArePlaces, LogIsShort};

use mb_edge::Disk;

/// Fresh copies are a part of what is seen.
pub fn fresh_is_part()
    ensures { FreshIsPart }
{}

/// Nothing is stale of what the holder of the right to commit alone gathered.
pub fn floor_is_not_stale()
    ensures { FloorIsNotStale }
{}

/// A ticket is answered four times at most that a copy of its own is stale: from the fourth on its call has the right to
/// commit alone, and nothing that it gathered is stale.
pub fn four_stales_are_all<F, D: Disk>()
    ensures { FourStalesAreAll F D }
{}

/// Who is inside has a call in flight with a ticket, and where one caller is inside, somebody is.
pub fn inside_flies()
    ensures flies { InsideFlies }
    ensures some { OneIsInside }
{}

/// An event of one caller leaves every other caller's public state as it was.
pub fn others_stand()
    ensures records { RecordsOfOthers }
    ensures stand { OthersStand }
{}

/// The tables move as others may see them by the rule of their stamp.
pub fn tables_by_rule()
    ensures { TablesByRule }
{}

/// A call that begins and enters at once does the two events after each other.
pub fn enters_at_once<F, D: Disk>()
    ensures { EntersAtOnce F D }
{}

/// Of two entries of one caller the later has the greater ordinal and moment, and no two entries have one moment.
pub fn entries_rise<F, D: Disk>()
    ensures { EntriesRise F D }
{}

/// Where every call that was begun has its entry, each caller's entries have the ordinals from 1 on, each in its place.
pub fn ordinals_are_places<F, D: Disk>()
    ensures { OrdinalsArePlaces F D }
{}

/// The operation log has at most 4,294,967,296 operations.
pub fn log_is_short<F, D: Disk>()
    ensures { LogIsShort F D }
{}
