ghost use Rattle.std.specs.Prelude.{◌≡◌, ◌≤◌, ◌<◌, ℕ, List, Option, None};
ghost use Rattle.mb_iface.specs.Needs.{IsNeed, IsRun};

use crate::change_lists::Changes;
use crate::others::Others;
use crate::views::View;
use mb_kinds::{Errno, Name, Octets, Stat};

/// What a query finds.
#[derive(Drop)]
pub enum Answer {
    /// To `Find` and `Info`: what stat tells of the inode.
    Node(Stat),
    /// To `Place`: the directory and the name of the last component, with the number that the name
    /// leads to, where it is there.
    Place {
        dir: u16,
        name: Name,
        ino: Option<u16>,
    },
    /// To `Place` of a path without components: the inode where the path starts.
    Itself(u16),
    /// To `Bytes`: the bytes from the offset on, at most the count.
    Bytes(Octets),
    /// To `Used`: the number of used slots.
    Used(u32),
}

/// Blocks that a view lacks: `count` of them from `first` on, and `others`, which may stand anywhere. `first` is
/// 1 to 262,143, and `count` 1 to 32.
#[derive(Clone, Copy, Debug, PartialEq, Drop)]
pub struct Need {
    pub first: u32,
    pub count: u32,
    pub others: Others,
}

impl Need {
    /// One block, from 1 on and below 262,144.
    pub fn one(block: u32) -> Need
        requires some { 1 ≤ block }
        requires below { block < 262144 }
        ensures first { result.first ≡ block }
        ensures count { result.count ≡ 1 }
        ensures need { (shown : ℕ → Option (List ℕ)) → shown block ≡ None → IsNeed shown result }
    {
        Need {
            first: block,
            count: 1,
            others: Others::none(),
        }
    }

    /// The tables of a core, for which block 0 stands: no file system asks for them.
    pub fn tables() -> Need
        ensures { (result.first ≡ 0) × (result.count ≡ 1) }
    {
        Need {
            first: 0,
            count: 1,
            others: Others::none(),
        }
    }

    /// The run of neighbours from a block on, which is from 1 on and below 262,144, that a view lacks:
    /// as far as they are `wanted`, at most 32, and up to the last block that a volume can have.
    pub fn run<V: View>(view: &V, first: u32, wanted: u32) -> Need
        requires some { 1 ≤ first }
        requires below { first < 262144 }
        requires wanted { 1 ≤ wanted }
        requires lacking { V.shown view.now first ≡ None }
        ensures need { IsNeed (V.shown view.now) result }
        ensures run { IsRun (V.shown view.now) first wanted result }
    {
        let most = wanted.min(32).min(262_144 - first);
        let others = Others::none();
        for count in 1..most {
            if view.get(first + count).is_some() {
                return Need {
                    first,
                    count,
                    others,
                };
            }
        }
        Need {
            first,
            count: most,
            others,
        }
    }

    /// The same blocks with these others, in the place of those before.
    pub fn with(self, others: Others) -> Need
        ensures need { (shown : ℕ → Option (List ℕ)) → IsNeed shown self → IsNeed shown result }
        ensures first { result.first ≡ self.first }
        ensures others { result.others ≡ others }
    {
        Need { others, ..self }
    }
}

/// The answer to a query.
#[derive(Drop)]
pub enum Asked {
    /// What the query asks for.
    Found(Answer),
    /// The reference model refuses the query with this error.
    Refused(Errno),
    /// The view lacks these blocks; ask again with them.
    Need(Need),
    /// Memory was wanted and not given.
    NoMemory,
}

/// The answer to an operation. Nothing was changed by an answer other than `Done`, and `Done` says
/// what is to be changed.
#[derive(Drop)]
pub enum Acted {
    /// The blocks that the operation changes, and the number with which it made an inode.
    Done { changes: Changes, pick: Option<u16> },
    /// The reference model refuses the operation with this error.
    Refused(Errno),
    /// The view lacks these blocks; act again with them.
    Need(Need),
    /// Memory was wanted and not given.
    NoMemory,
}
