ghost use Rattle.mb_commands.specs.Worked.{WordsWorked};

/// Words that are commands, and words that are none.
pub fn worked_words()
    ensures { WordsWorked }
{}
