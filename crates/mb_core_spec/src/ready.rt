use mb_iface::Changes;
use mb_kinds::Reply;
use mb_tree::{FsOp, SessionChange};

/// What a call comes to that was performed over gathered blocks.
#[derive(Drop)]
pub struct Ready {
    /// The answer.
    pub reply: Reply,
    /// The operation that is logged; `None` where nothing changes.
    pub op: Option<FsOp>,
    /// The number of the inode that the operation makes, 3 to 65,535.
    pub pick: Option<u16>,
    /// The changed blocks.
    pub changes: Changes,
    /// What becomes of the caller's session.
    pub session: SessionChange,
    /// Whether the answer depends on other callers' sessions: on the open counts or on their current directories.
    pub shared: bool,
}
