ghost use Rattle.mb_callers.specs.CallerLaws.{BlocksGathered, FloorMeetsNoStale, FreshFinishes, FreshIsNotStale, LeastIsOne, TablesGathered};

use mb_edge::Disk;

/// What gathering comes to for the core's event and for who drives the call: what pages had they have, with what was
/// asked for first, and pages that were the copies are.
pub fn gathered<D: Disk>()
    ensures blocks { BlocksGathered D.told }
    ensures tables { TablesGathered D.told }
{}

/// What the search for a stale block tells: where it finds none, the call may finish; the one that it names is alone;
/// and where a call's pages are its copies and it has the right to commit alone, there is none.
pub fn least_stale_block()
    ensures finishes { FreshFinishes }
    ensures floor { FloorMeetsNoStale }
    ensures apart { FreshIsNotStale }
    ensures one { LeastIsOne }
{}
