ghost use Rattle.mb_call_texts.specs.Laws.{HasOneText, JobsReadBack, ReadsBack, ReadsWritable};
ghost use Rattle.mb_call_texts.specs.Worked.{WorkedReadings, WorkedTexts};

/// The text of each call that a text can write is read as that call.
pub fn reads_back()
    ensures { ReadsBack }
{}

/// Each call that is read of a text is one that a text can write.
pub fn reads_writable()
    ensures { ReadsWritable }
{}

/// The call that is read of a text is read of its own text too.
pub fn has_one_text()
    ensures { HasOneText }
{}

/// Each call of a job, the added `exit`s among them, is read of its text in the job and of the text that
/// is written for it.
pub fn jobs_read_back()
    ensures { JobsReadBack }
{}

/// The texts of some calls, worked out by hand.
pub fn worked_texts()
    ensures { WorkedTexts }
{}

/// What is read of some texts, worked out by hand.
pub fn worked_readings()
    ensures { WorkedReadings }
{}
