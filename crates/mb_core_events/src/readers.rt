ghost use Rattle.std.specs.Prelude.{◌≡◌, ◌<◌, ◌≤◌, length};
ghost use Rattle.mb_core_spec.specs.Right.{Right};
ghost use Rattle.mb_core_spec.specs.Trail.{IsDisciplined};
ghost use Rattle.mb_core_state.specs.Mine.{OfMine};
ghost use Rattle.mb_core_events.specs.Callings.{state_of};

use crate::events::Core;
use crate::states::State;
use mb_core_spec::{Config, Stage, Step};
use mb_edge::Disk;
use mb_iface::FileSys;
use mb_kinds::{Entry, FaultRecord};

impl<F: FileSys, D: Disk> Core<F, D> {
    /// The entries of the answered calls, in order.
    pub fn history(&self) -> &[Entry]
        ensures history { result.now ≡ self.now.journal.history }
        ensures right { Right D.told D.faults self.now }
    {
        self.fields.history()
    }

    /// The faults that were taken, in order; they are numbered from 1.
    pub fn records(&self) -> &[FaultRecord]
        ensures records { result.now ≡ self.now.journal.records }
        ensures few { length result.now ≤ 256 }
    {
        self.fields.records()
    }

    /// The event trace, which is disciplined.
    pub fn trail(&self) -> &[Step]
        ensures trail { result.now ≡ self.now.journal.trail }
        ensures disciplined { IsDisciplined (length self.now.callers) result.now }
    {
        self.fields.trail()
    }

    /// At how many entries the last checkpoint was taken; 0 before the first.
    pub fn sealed_at(&self) -> u32
        ensures { result ≡ self.now.journal.sealed_at }
    {
        self.fields.sealed_at()
    }

    /// How many operations the log has: those since the last checkpoint, as they were logged or folded.
    pub fn logged(&self) -> u32
        ensures { result ≡ length self.now.journal.oplog }
    {
        self.fields.logged()
    }

    /// How many calls a caller began.
    pub fn begun(&self, caller: u8) -> u32
        requires { caller < length self.now.config.callers }
        ensures { OfMine self.now caller (λ mine. result ≡ mine.begun) }
    {
        self.fields.begun(caller)
    }

    /// Whether the volume runs.
    pub fn state(&self) -> State
        ensures { result ≡ state_of self.now.stage }
    {
        match self.fields.stage() {
            Stage::Running => State::Running,
            Stage::Failed => State::Failed,
            Stage::Struck | Stage::Again | Stage::Dropped | Stage::Remounted | Stage::Restored(_) =>
                State::Recovering,
        }
    }

    /// Where the volume stands.
    pub fn stage(&self) -> Stage
        ensures { result ≡ self.now.stage }
    {
        self.fields.stage()
    }

    /// What it was begun with.
    pub fn config(&self) -> &Config
        ensures { result.now ≡ self.now.config }
    {
        self.fields.config()
    }

    /// A copy of the file system's code.
    pub fn fs(&self) -> F
        ensures { result ≡ self.now.fs }
    {
        self.fields.fs()
    }

    /// Gives the disk back.
    pub fn into_disk(self) -> D
        ensures { result ≡ self.cache.disk }
    {
        let Core { fields } = self;
        fields.into_disk()
    }
}
