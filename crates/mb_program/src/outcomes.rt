use mb_commands::Line;
use mb_jobs::Text;

/// How the program ended, before it printed. `specs/Outcomes.antt` says when each comes, with its status
/// and its text.
#[derive(Drop)]
pub enum Outcome {
    /// The words are no command, or no volume has the sizes of a `mkfs`.
    WordsRefused,
    /// The job could not be read.
    InputFault,
    /// The job's text is none; the text is the line with the first cause.
    JobRefused(Text),
    /// The disk failed while the image was opened, made, or checked.
    DiskFault,
    /// There was no memory.
    OutOfMemory,
    /// A fresh volume was made; the text is its line.
    Made(Line),
    /// The image is a volume; the text is the line with its figures.
    Checked(Line),
    /// The image is no volume; the text is the line with the first broken rule and its block.
    Unsound(Line),
    /// The job was run, and the disk failed in the end of the run; the text is its transcript and the line of the
    /// fault, or that line alone.
    Unsettled(Text),
    /// The job was run, and more faults struck than the volume survives; the text tells the run.
    GivenUp(Text),
    /// The job was run; the text is its transcript with the last line, or one line for all.
    Ran(Text),
}
