ghost use Rattle.std.specs.Prelude.{◌≡◌};
ghost use Rattle.mb_tree.specs.Rows.{reply, seated, act, both};

use crate::operations::FsOp;
use crate::seats::SessionChange;
use mb_kinds::Reply;

/// What a call that is not refused will do: its reply, one operation on the file system or none, and
/// one change of its caller's session.
#[derive(Drop)]
pub struct CallPlan {
    pub reply: Reply,
    pub op: Option<FsOp>,
    pub session: SessionChange,
}

/// A reply alone.
pub fn answered(answer: Reply) -> CallPlan
    ensures { result ≡ reply answer }
{
    CallPlan {
        reply: answer,
        op: None,
        session: SessionChange::Same,
    }
}

/// A reply and a session change.
pub fn changing(answer: Reply, change: SessionChange) -> CallPlan
    ensures { result ≡ seated answer change }
{
    CallPlan {
        reply: answer,
        op: None,
        session: change,
    }
}

/// Reply 0 and an operation.
pub fn acting(op: FsOp) -> CallPlan
    ensures { result ≡ act op }
{
    CallPlan {
        reply: Reply::Num(0),
        op: Some(op),
        session: SessionChange::Same,
    }
}

/// A number, an operation and a session change.
pub fn both(number: u32, op: FsOp, change: SessionChange) -> CallPlan
    ensures { result ≡ both number op change }
{
    CallPlan {
        reply: Reply::Num(number),
        op: Some(op),
        session: change,
    }
}
