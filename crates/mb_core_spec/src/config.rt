use mb_kinds::Creds;

/// What a core is begun with.
#[derive(Drop)]
pub struct Config {
    /// The declared callers, at most eight.
    pub callers: Creds,
    /// The moment before the first call.
    pub start: u32,
    /// At so many operations of the log a checkpoint is due.
    pub threshold: u32,
    /// How many faults are recovered from.
    pub limit: u32,
    /// How many calls each caller may begin.
    pub most: u32,
}
