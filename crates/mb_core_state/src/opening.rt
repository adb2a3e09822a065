ghost use Rattle.std.specs.Prelude.{◌≡◌, ◌<◌, [], length, OnOk, OnErr, IfOk};
ghost use Rattle.mb_cache.specs.State.{ReadHasCause};
ghost use Rattle.mb_core_spec.specs.Events.{with_room};
ghost use Rattle.mb_core_state.specs.Answers.{with_disk, with_read};
ghost use Rattle.mb_core_state.specs.Opening.{ActsOnNameless, IsCheckpointedBy, IsSwept};

use crate::acting::act_seen;
use crate::fields::Fields;
use mb_cache::ReadFault;
use mb_copies::Blocks;
use mb_edge::{Disk, NoMemory};
use mb_iface::{Changes, FileSys};
use mb_tables::counts_of;
use mb_tree::{FsOp, Inos};
use std::alloc::Global;

impl<F: FileSys, D: Disk> Fields<F, D> {
    /// The nameless files of a volume that is opened are reclaimed, in one release over a table that counts each of them as
    /// often as it stands in the list; what that changes becomes checkpointed pages, and no page is a clean one. `Device` comes only
    /// where the disk's count of faults rose; on an error nothing has changed but the disk.
    pub fn sweep(&mut self, alloc: Global, nameless: Inos) -> Result<(), ReadFault>
        requires { length nameless < 4294967296 }
        ensures ok { OnOk result (IsSwept D.told self.old self.new nameless) }
        ensures unread { OnOk result (self.new.cache.room.clean ≡ []) }
        ensures err { OnErr result (self.new ≡ with_room (with_disk self.old self.new.cache.disk) self.new) }
        ensures told { D.told self.new.cache.disk ≡ D.told self.old.cache.disk }
        ensures cause { ReadHasCause (D.faults self.old.cache.disk) (D.faults self.new.cache.disk) result }
    {
        let changes = self.release_all(alloc, nameless)?;
        self.put_checkpointed(&changes)?;
        Ok(())
    }

    #[tactic(auto, using(crate::proofs::Kept::still_seen))]
    fn release_all(&mut self, alloc: Global, nameless: Inos) -> Result<Changes, ReadFault>
        requires { length nameless < 4294967296 }
        ensures ok { IfOk result (λ changes. ActsOnNameless D.told self.old.cache nameless changes) }
        ensures rest { self.new ≡ with_read self.old self.new.cache }
        ensures told { D.told self.new.cache.disk ≡ D.told self.old.cache.disk }
        ensures cause { ReadHasCause (D.faults self.old.cache.disk) (D.faults self.new.cache.disk) result }
    {
        let opens = counts_of(alloc, nameless.as_slice())?;
        let op = FsOp::Release { inos: nameless };
        let mut blocks = Blocks::new(alloc);
        act_seen(
            alloc,
            &self.fs,
            &mut self.cache,
            &mut blocks,
            &opens,
            &op,
            None,
        )
    }

    #[tactic(auto, using(crate::proofs::Kept::none_seen))]
    fn put_checkpointed(&mut self, changes: &Changes) -> Result<(), NoMemory>
        ensures ok { OnOk result (IsCheckpointedBy self.old self.new changes.now) }
        ensures unread { OnOk result (self.new.cache.room.clean ≡ []) }
        ensures err { OnErr result (self.new ≡ with_room self.old self.new) }
        ensures disk { self.new.cache.disk ≡ self.old.cache.disk }
    {
        let blocks = changes.len();
        self.cache.reserve(blocks)?;
        self.kept.clear();
        self.cache.install(changes);
        self.cache.seal();
        self.cache.forget_clean();
        Ok(())
    }
}
