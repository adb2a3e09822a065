ghost use Rattle.std.specs.Prelude.{◌≡◌, ◌∷◌, ◌++◌, ◌+◌, ◌<◌, ◌≤◌, List, IfOk, OnOk, OnErr, length};
ghost use Rattle.mb_tree.specs.CarriedOut.{PickedOp};
ghost use Rattle.mb_folds.specs.Folded.{folded, folded_from};
ghost use Rattle.mb_oplog.specs.Picked.{as_picked, picked_ops};

use crate::copies::copied;
use crate::joins::{is_merged, merged};
use mb_edge::NoMemory;
use mb_oplog::{Logged, Oplog};
use std::alloc::Global;

/// Folds the log, in one pass over its operations and their bytes; the room for further operations stays. The only
/// error is want of memory, and the log is then as it was. There are fewer than 2^32 operations.
pub fn fold(alloc: Global, log: &mut Oplog) -> Result<(), NoMemory>
    requires { length log.old.items < 4294967296 }
    ensures ok { OnOk result (picked_ops log.new.items ≡ folded (picked_ops log.old.items)) }
    ensures err { OnErr result (log.new ≡ log.old) }
    ensures short { length log.new.items ≤ length log.old.items }
    ensures room { log.old.spare + length log.old.items ≤ log.new.spare + length log.new.items }
{
    let ops = folded_copy(alloc, log)?;
    refill(log, ops);
    Ok(())
}

/// The folded log, apart from it.
fn folded_copy(alloc: Global, log: &Oplog) -> Result<Vec<Logged>, NoMemory>
    requires { length log.now.items < 4294967296 }
    ensures { IfOk result (λ ops. picked_ops ops.items ≡ folded (picked_ops log.now.items)) }
{
    let mut settled = Vec::new(alloc);
    if log.len() == 0 {
        return Ok(settled);
    }
    let mut last = copied(alloc, log.get(0))?;
    for at in 1..log.len() {
        last = take_in(alloc, &mut settled, last, log.get(at))?;
    }
    settled.push(last)?;
    Ok(settled)
}

/// Takes the next operation in: merged with the last one, or behind it, which is settled then. What comes out is the
/// last one from there on.
fn take_in(
    alloc: Global,
    settled: &mut Vec<Logged>,
    last: Logged,
    next: &Logged,
) -> Result<Logged, NoMemory>
    ensures { IfOk result (λ now.
        (later : List PickedOp) → picked_ops settled.new.items ++ folded_from (as_picked now) later
        ≡ picked_ops settled.old.items ++ folded_from (as_picked last) (as_picked next.now ∷ later)) }
{
    if is_merged(&last, next) {
        return merged(alloc, last, next);
    }
    settled.push(last)?;
    copied(alloc, next)
}

/// Puts these operations in the place of those that the log holds, at most as many.
fn refill(log: &mut Oplog, ops: Vec<Logged>)
    requires { length ops.items ≤ length log.old.items }
    ensures items { log.new.items ≡ ops.items }
    ensures room { log.old.spare + length log.old.items ≤ log.new.spare + length log.new.items }
{
    log.clear();
    for logged in ops {
        log.push(logged.op, logged.pick);
    }
}
