/// Whether a call with a ticket goes on.
#[derive(Clone, Copy, Debug, PartialEq, Eq, Drop)]
pub enum Verdict {
    /// The ticket is of another incarnation than the present one: `mine` is the ticket's, `now` the present one.
    Skip { mine: u32, now: u32 },
    /// A recovery is in progress.
    Shut,
    /// The call goes on.
    Pass,
}
