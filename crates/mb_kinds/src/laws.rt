ghost use Rattle.mb_kinds.specs.Own.{OwnAppends};

/// A caller's own entries of two histories in a row are those of the first and then those of the
/// second.
pub fn own_appends()
    ensures { OwnAppends }
{}
