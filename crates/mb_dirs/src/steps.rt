use mb_iface::Need;

/// What became of a step that is never refused.
#[derive(Clone, Copy, Debug, PartialEq, Drop)]
pub enum Advanced {
    /// It is done.
    Done,
    /// The view lacks these blocks.
    Need(Need),
    /// Memory was wanted and not given.
    NoMemory,
}
