/// Whether a volume runs.
#[derive(Clone, Copy, Debug, PartialEq, Eq, Drop)]
pub enum State {
    /// It runs.
    Running,
    /// A recovery is in progress.
    Recovering,
    /// More faults struck than the limit; no call is served any more.
    Failed,
}
