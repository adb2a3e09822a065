ghost use Rattle.std.specs.Prelude.{◌≡◌, IfOk};
ghost use Rattle.mb_cache.specs.State.{ReadHasCause, after_reads};
ghost use Rattle.mb_core_state.specs.KeptBlocks.{AreSeen};
ghost use Rattle.mb_core_state.specs.Redoing.{ActsSeen};

use mb_cache::{Cache, ReadFault};
use mb_copies::Blocks;
use mb_edge::Disk;
use mb_iface::{Acted, Changes, FileSys, Opens};
use mb_tree::FsOp;
use std::alloc::Global;

/// What a file system makes of an operation, over blocks as they are seen; those that it lacks are gathered. An operation
/// that it refuses is answered as want of memory. On an error nothing has changed but the disk, the clean pages and the
/// blocks.
pub(crate) fn act_seen<F: FileSys, D: Disk>(
    alloc: Global,
    fs: &F,
    cache: &mut Cache<D>,
    blocks: &mut Blocks,
    opens: &Opens,
    op: &FsOp,
    pick: Option<u16>,
) -> Result<Changes, ReadFault>
    requires { AreSeen D.told cache.old blocks.old }
    ensures ok { IfOk result (λ changes. ActsSeen D.told cache.old opens.now op.now pick changes) }
    ensures rest { cache.new ≡ after_reads cache.old cache.new }
    ensures told { D.told cache.new.disk ≡ D.told cache.old.disk }
    ensures cause { ReadHasCause (D.faults cache.old.disk) (D.faults cache.new.disk) result }
    ensures seen { AreSeen D.told cache.new blocks.new }
{
    'asks: loop {
        match fs.act(alloc, blocks, opens, op, pick) {
            Acted::Done { changes, pick: _ } => return Ok(changes),
            Acted::Refused(_) | Acted::NoMemory => return Err(ReadFault::NoMemory),
            Acted::Need(need) => blocks.gather(cache, need)?,
        }
    }
}
