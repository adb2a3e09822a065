ghost use Rattle.std.specs.Prelude.{◌≡◌, ◌<◌, ◌∷◌, [], length, IfOk, OnOk, OnErr};
ghost use Rattle.std.specs.FinMap as fin;
ghost use Rattle.mb_edge.specs.Damage.{count_replaced};
ghost use Rattle.mb_tree.specs.Sweep.{opens_of_list};
ghost use Rattle.mb_session.specs.OpenFiles.{TellsCounts};
ghost use Rattle.mb_tables.specs.Follows.{count_stroke, counts_damaged, followed, followed_if, held_once_more, is_seen, opens_any, released_each};

use mb_edge::{Damage, NoMemory, Stroke};
use mb_iface::Opens;
use mb_tree::{FsOp, SessionChange};
use std::alloc::Global;

/// Whether another call can see what a call with this operation and session change does to the tables.
pub(crate) fn is_seen(op: &Option<FsOp>, change: &SessionChange) -> bool
    ensures { result ≡ is_seen op.now change.now }
{
    match change {
        SessionChange::Cwd { ino: _ } => true,
        _ => opens_any(op),
    }
}

fn opens_any(op: &Option<FsOp>) -> bool
    ensures { result ≡ opens_any op.now }
{
    match op {
        Some(FsOp::Create { .. } | FsOp::Empty { .. } | FsOp::Hold { .. } | FsOp::Release { .. }) =>
            true,
        _ => false,
    }
}

/// The counts after an operation, or after none. The only error is want of memory; the counts are then as before.
pub(crate) fn follow_if(
    opens: &mut Opens,
    op: &Option<FsOp>,
    pick: Option<u16>,
) -> Result<(), NoMemory>
    ensures ok { OnOk result (opens.new ≡ followed_if opens.old op.now pick) }
    ensures err { OnErr result (opens.new ≡ opens.old) }
{
    match op {
        Some(op) => follow(opens, op, pick),
        None => Ok(()),
    }
}

/// The counts after an operation. The only error is want of memory; the counts are then as before.
pub(crate) fn follow(opens: &mut Opens, op: &FsOp, pick: Option<u16>) -> Result<(), NoMemory>
    ensures ok { OnOk result (opens.new ≡ followed opens.old op.now pick) }
    ensures err { OnErr result (opens.new ≡ opens.old) }
{
    match op {
        FsOp::Create { .. } => match pick {
            Some(ino) => hold(opens, ino),
            None => Ok(()),
        },
        FsOp::Empty { ino, moment: _ } => hold(opens, *ino),
        FsOp::Hold { ino } => hold(opens, *ino),
        FsOp::Release { inos } => {
            release(opens, inos.as_slice());
            Ok(())
        }
        _ => Ok(()),
    }
}

/// One open file more on an inode; a count stays at its greatest value. The only error is want of memory.
fn hold(opens: &mut Opens, ino: u16) -> Result<(), NoMemory>
    ensures ok { OnOk result (opens.new ≡ held_once_more opens.old ino) }
    ensures err { OnErr result (opens.new ≡ opens.old) }
{
    let count = opens.count(ino).saturating_add(1);
    opens.set(ino, count)?;
    Ok(())
}

/// A table with an open file for each time that an inode's number stands in a list. The only error is want of memory.
pub fn counts_of(alloc: Global, inos: &[u16]) -> Result<Opens, NoMemory>
    requires { length inos.now < 4294967296 }
    ensures { IfOk result (λ opens. TellsCounts opens (opens_of_list inos.now)) }
{
    let mut opens = Opens::new(alloc);
    for ino in inos {
        hold(&mut opens, *ino)?;
    }
    Ok(opens)
}

/// One open file less for each of the inodes, where there is one; needs no memory.
fn release(opens: &mut Opens, inos: &[u16])
    ensures { opens.new ≡ released_each opens.old inos.now }
{
    for ino in inos {
        release_one(opens, *ino);
    }
}

fn release_one(opens: &mut Opens, ino: u16)
    ensures { opens.new ≡ released_each opens.old (ino ∷ []) }
{
    let count = opens.count(ino);
    if count == 0 {
        return;
    }
    let Ok(()) = opens.set(ino, count - 1) else {
        unreachable!()
    };
}

/// Does the strokes of a fault, in order, to the counts; needs no memory.
pub(crate) fn damage_counts(opens: &mut Opens, damage: &Damage)
    ensures { opens.new ≡ counts_damaged opens.old damage.now }
{
    for stroke in damage.as_slice() {
        do_stroke(opens, stroke);
    }
}

fn do_stroke(opens: &mut Opens, stroke: &Stroke)
    ensures { opens.new ≡ count_stroke opens.old stroke.now }
{
    match stroke {
        Stroke::Count { ino, count } => replace(opens, *ino, *count),
        Stroke::Wipe(_) | Stroke::Page { .. } => {}
    }
}

/// Sets the count of an inode that is open, and changes nothing otherwise; needs no memory.
fn replace(opens: &mut Opens, ino: u16, count: u32)
    ensures { opens.new ≡ count_replaced opens.old ino count (fin.get opens.old ino) }
{
    if opens.count(ino) == 0 {
        return;
    }
    let Ok(()) = opens.set(ino, count) else {
        unreachable!()
    };
}
