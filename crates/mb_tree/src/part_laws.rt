ghost use Rattle.mb_tree.specs.PutParts.{PartsAfterPut, PartsStandAfterPut, PartsStayWhole, PutSplits, PutWithinPart, WorkedParts};

/// After bytes were put into a file, each part has those that fall into it and is else as it was.
pub fn parts_after_put()
    ensures { PartsAfterPut }
{}

/// The parts that stand after bytes were put are those that stood, and those into which a byte falls.
pub fn parts_stand_after_put()
    ensures { PartsStandAfterPut }
{}

/// Parts of 512 bytes stay such parts.
pub fn parts_stay_whole()
    ensures { PartsStayWhole }
{}

/// Bytes can be put in two runs.
pub fn put_splits()
    ensures { PutSplits }
{}

/// Bytes that end within the part in which they begin are one write to it.
pub fn put_within_part()
    ensures { PutWithinPart }
{}

/// A worked example: four bytes put at index 510.
pub fn worked_parts()
    ensures { WorkedParts }
{}
