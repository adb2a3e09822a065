ghost use Rattle.mb_tree.specs.declared.operations.FsOp.TheVariants.{Hold};
ghost use Rattle.mb_iface.specs.Acting.{KeepsWhereHeld};
ghost use Rattle.mb_fsops.specs.Performing.{PerformsAnyway};

use mb_iface::{Acted, Changes, View};
use std::alloc::Global;

/// Opens a file or a directory (V7 open(2)): no block changes, since only the counts of open files,
/// which the caller keeps, do.
pub fn hold<V: View>(alloc: Global, view: &V, ino: u16) -> Acted
    ensures performs { PerformsAnyway (V.shown view.now) (Hold ino) result }
    ensures still { KeepsWhereHeld (Hold ino) result }
{
    let _ = view;
    Acted::Done {
        changes: Changes::new(alloc),
        pick: None,
    }
}
