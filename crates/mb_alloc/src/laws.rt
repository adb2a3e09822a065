ghost use Rattle.mb_alloc.specs.Worked.{NoneFree, PickWorked};

/// No number is picked exactly where none from 3 to the last is free, and worked picks from a cache
/// and from an i-list.
pub fn number_picks()
    ensures none { NoneFree }
    ensures worked { PickWorked }
{}
