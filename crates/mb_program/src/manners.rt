/// How a job is run, and how that is told.
#[derive(Clone, Copy, Debug, PartialEq, Eq, Drop)]
pub enum Manner {
    /// By one thread; told by a transcript and a last line.
    Alone,
    /// Each caller by a thread of its own; told in the same way.
    Threads,
    /// By one thread, a job that was generated; told in one line.
    Soak,
}
