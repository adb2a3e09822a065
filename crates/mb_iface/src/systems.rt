use crate::open_counts::Opens;
use crate::queries::Query;
use crate::replies::{Acted, Asked};
use crate::views::View;
use mb_tree::FsOp;
use std::alloc::Global;

/// A file system's code, which holds nothing: it reads the blocks that a view has, and answers. On
/// each view it returns, with a `Need` only for a block that the view lacks.
///
/// Contracts say what an answer means where the view is a part of an image that is a volume of a
/// tree: then a query is answered as the reference tree answers it, an operation's changes make a
/// volume of the tree after its effect, and the first block that is asked for is near the query or
/// operation.
/// That is said of a query that can be asked of the tree (`IsAskable`) and of an operation that fits
/// it (`Fits` of `mb_tree`); of any other one nothing but that it is answered. What a `Need` names
/// (`IsNeed`) is said on every view.
pub trait FileSys: Copy {
    ghost use Rattle.mb_iface.specs.Needs.{AsksFor, ActsFor};
    ghost use Rattle.mb_iface.specs.Asking.{Finds};
    ghost use Rattle.mb_iface.specs.Acting.{Acts, KeepsWhereHeld};
    ghost use Rattle.mb_iface.specs.OnVolumes.{OnVolumes};

    /// Answers a query.
    fn ask<V: View>(&self, alloc: Global, view: &V, query: &Query) -> Asked
        ensures need { AsksFor (V.shown view.now) result }
        ensures answer { OnVolumes (V.shown view.now) (λ image tree. Finds image tree query.now result) };

    /// Says what an operation changes. `opens` are the counts of open files before it. Where the
    /// operation makes an inode it gets the number `pick`; where none is demanded, a free one. Holding
    /// a file open changes no block, on every view.
    fn act<V: View>(
        &self,
        alloc: Global,
        view: &V,
        opens: &Opens,
        op: &FsOp,
        pick: Option<u16>,
    ) -> Acted
        ensures need { ActsFor (V.shown view.now) result }
        ensures answer { OnVolumes (V.shown view.now) (λ image tree.
            Acts (V.shown view.now) image tree opens.now op.now pick result) }
        ensures still { KeepsWhereHeld op.now result };
}
