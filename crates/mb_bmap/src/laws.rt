ghost use Rattle.mb_bmap.specs.WayLaws.{WaysLead, WorkedWays};

/// The way to a part leads to the place at which the part's address stands, and the ways to the first
/// and the last part of each kind.
pub fn ways_lead()
    ensures places { WaysLead }
    ensures worked { WorkedWays }
{}
