/// Where the volume stands: it runs, or a recovery has come so far, or it has failed.
#[derive(Clone, Copy, Debug, PartialEq, Eq, Drop)]
pub enum Stage {
    /// The volume runs.
    Running,
    /// A fault struck the running volume; the calls inside wait to be unwound.
    Struck,
    /// A fault struck a recovery, which begins anew.
    Again,
    /// The dirty pages were dropped.
    Dropped,
    /// The file system was started anew.
    Remounted,
    /// The open files were restored, and so many operations of the log were done again.
    Restored(u32),
    /// More faults struck than the limit; no call is served any more.
    Failed,
}
