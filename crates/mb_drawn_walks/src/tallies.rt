ghost use Rattle.std.specs.Prelude.{◌<◌};

use mb_tree::FsOp;

/// How many operations of each kind there were.
#[derive(Clone, Copy, Drop)]
pub struct OperationTally {
    counts: [u32; 12],
}

/// The place of an operation's kind.
fn kind(op: &FsOp) -> usize
    ensures { result < 12 }
{
    match op {
        FsOp::Create { .. } => 0,
        FsOp::Empty { .. } => 1,
        FsOp::MakeDir { .. } => 2,
        FsOp::RemoveDir { .. } => 3,
        FsOp::Enlink { .. } => 4,
        FsOp::Delink { .. } => 5,
        FsOp::Put { .. } => 6,
        FsOp::SetMode { .. } => 7,
        FsOp::SetOwner { .. } => 8,
        FsOp::SetTimes { .. } => 9,
        FsOp::Hold { .. } => 10,
        FsOp::Release { .. } => 11,
    }
}

impl OperationTally {
    /// None.
    pub fn new() -> OperationTally {
        OperationTally { counts: [0; 12] }
    }

    /// One more.
    pub fn add(&mut self, op: &FsOp) {
        let place = kind(op);
        self.counts[place] = self.counts[place].saturating_add(1);
    }

    /// How many there were of the kind that came least often.
    pub fn least(&self) -> u32 {
        let mut least = u32::MAX;
        for count in self.counts {
            least = least.min(count);
        }
        least
    }

    /// How many there were in all.
    pub fn total(&self) -> u32 {
        let mut total = 0u32;
        for count in self.counts {
            total = total.saturating_add(count);
        }
        total
    }
}
