ghost use Rattle.std.specs.Prelude.{◌<◌, length, IfOk};
ghost use Rattle.mb_tree.specs.Sessions.{HasDescriptorInRange};

use crate::devices::BenchDevice;
use crate::faults::BenchFault;
use mb_calls::{Performed, Performing, ReadyCall, walks_go_on};
use mb_fsops::V7;
use mb_kinds::{Call, Cred, Creds, Reply};
use mb_tables::Tables;
use mb_tree::SessionChange;
use std::alloc::Global;

/// A call that asks more often is given up.
const MOST_ASKS: u32 = 400;

/// How many calls were made, and how often they asked for blocks.
#[derive(Clone, Copy, Debug, PartialEq, Drop)]
pub struct CallCounts {
    pub calls: u32,
    pub asks: u32,
}

/// One caller, of uid 0, over a volume in memory. The moment of a call is its number, from 1 on.
#[derive(Drop)]
pub struct Bench {
    heap: Global,
    device: BenchDevice,
    tables: Tables,
    moment: u32,
    counts: CallCounts,
}

impl Bench {
    /// The fresh volume of so many blocks and inodes, with a caller that begins.
    pub fn new(heap: Global, blocks: u16, inodes: u16) -> Result<Bench, BenchFault> {
        let creds = Creds::from_vec([Cred { uid: 0, gid: 0 }].to_vec(heap)?);
        Ok(Bench {
            heap,
            device: BenchDevice::fresh(heap, blocks, inodes)?,
            tables: Tables::new(heap, &creds)?,
            moment: 0,
            counts: CallCounts { calls: 0, asks: 0 },
        })
    }

    /// What was counted.
    pub fn counts(&self) -> CallCounts {
        self.counts
    }

    /// Begins to count anew.
    pub fn forget_counts(&mut self) {
        self.counts = CallCounts { calls: 0, asks: 0 };
    }

    /// Makes a call, and writes what it changes. A call that is refused is an error.
    pub fn call(&mut self, call: &Call) -> Result<Reply, BenchFault> {
        self.moment = self.moment.saturating_add(1);
        self.counts.calls = self.counts.calls.saturating_add(1);
        let (ready, asks) = performed(
            self.heap,
            &mut self.device,
            &self.tables,
            call,
            self.moment,
        )?;
        self.counts.asks = self.counts.asks.saturating_add(asks);
        self.device.let_go();
        self.device.write(&ready.changes);
        if ready.op.is_some() || !matches!(ready.session, SessionChange::Same) {
            if self.tables.sessions().callers() == 0 || self.tables.stamp() == u64::MAX {
                return Err(BenchFault::Call);
            }
            self.tables.log(0, &ready.op, ready.pick, ready.session)?;
        }
        match ready.reply {
            Reply::Refused(_) => Err(BenchFault::Call),
            reply => Ok(reply),
        }
    }
}

/// What a call comes to, and how often it asked for blocks: each time they are gathered, and it is begun once more.
fn performed(
    heap: Global,
    device: &mut BenchDevice,
    tables: &Tables,
    call: &Call,
    moment: u32,
) -> Result<(ReadyCall, u32), BenchFault>
    ensures { IfOk result (λ told. HasDescriptorInRange told.0.session) }
{
    walks_go_on();
    let seats = tables.sessions().as_slice();
    if seats.is_empty() {
        return Err(BenchFault::Call);
    }
    let mut performing = Performing::new(&seats[0]);
    for asks in 0..MOST_ASKS {
        match performing.go(heap, &V7, &*device, seats, tables.opens(), 0, call, moment) {
            Performed::Ready(ready) => return Ok((ready, asks)),
            Performed::Need(need) => device.gather(&need),
            Performed::NoMemory => return Err(BenchFault::NoMemory),
        }
    }
    Err(BenchFault::Call)
}
