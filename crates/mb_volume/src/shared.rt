ghost use Rattle.std.specs.Prelude.{◌≡◌, ◌≤◌, ◌<◌, IfErr, IfOk, Some, length, slice_get};
ghost use Rattle.mb_core_events.specs.Callings.{HasOpenCall};
ghost use Rattle.mb_core_spec.specs.Copies.{no_pages};
ghost use Rattle.mb_core_spec.specs.Events.{ended, with_room};
ghost use Rattle.mb_core_spec.specs.Right.{Right};
ghost use Rattle.mb_core_spec.specs.State.{CallerState};
ghost use Rattle.mb_run.specs.CoreSight.{sight_of};
ghost use Rattle.mb_run.specs.Seals.{AreInTime};
ghost use Rattle.mb_run.specs.Sights.{IsOrderlyInSight, amiss_in};
ghost use Rattle.mb_volume.specs.Attempts.{without_pages};
ghost use Rattle.mb_volume.specs.Coming.{ComesOfEvent};
ghost use Rattle.mb_volume.specs.Parts.{part_of, stand_in};
ghost use Rattle.mb_volume.specs.Rising.{RisesAfter, word_for};
ghost use Rattle.mb_volume.specs.Shared.{origin_of};
ghost use Rattle.mb_volume.specs.Underway.{GrowsAfter, IsOn, MayCome};

use crate::attempt::Attempt;
use crate::events::{Came, Event, act};
use mb_callers::Pages;
use mb_core_events::Core;
use mb_edge::{Disk, Hook};
use mb_iface::FileSys;
use mb_kinds::Call;
use mb_run::EventCore;
use mb_turn::Booked;
use mb_volume_core::{Origin, VolumeCore};
use std::alloc::Global;
use std::marker::Model;
use std::mem::swap;

/// What of a shared core lies on the heap.
struct Kept<F: FileSys, D: Disk> {
    core: VolumeCore<F, D>,
    /// Pages with nothing in them. A call that enters gathers into them, and when it leaves puts its own here, so that
    /// their room serves the next one.
    spare: Pages,
}

/// A core that callers share: what the turn keeps. Its entries are the core's history, the stand of a declared caller is
/// what the core keeps of it, with its fault records, and its origin is the core's. Its checkpoints are taken in time, and its tally
/// is how many of them were taken where none was due, or left out behind a `sync(2)`: no caller raises it.
/// It lies on the heap, so that it goes from caller to caller as a pointer.
pub struct SharedCore<F: FileSys, D: Disk> {
    kept: Box<Kept<F, D>>,
}

impl<F: FileSys, D: Disk> Model for SharedCore<F, D> {
    ghost use Rattle.std.specs.Coded.{codes, coded_ℕ};
    ghost use Rattle.std.specs.FinMap as fin;
    ghost use Rattle.std.specs.Ordering.{nat_cmp};
    ghost use Rattle.mb_tree.specs.contracts.seats.PlainFile as file;
    ghost use Rattle.std.specs.Prelude.{◌≡◌};
    ghost use Rattle.mb_core_spec.specs.Copies.{no_pages};
    ghost use Rattle.mb_run.specs.CoreSight.{sight_of};
    ghost use Rattle.mb_run.specs.Seals.{AreInTime};
    ghost use Rattle.mb_volume.specs.Shared.{Shared};

    ghost Value = { Shared F D };

    ghost coded = { Prim.hlevel (codes, F.code, D.code, fin.code {R = nat_cmp} coded_ℕ coded_ℕ, fin.code {R = nat_cmp} coded_ℕ file.the_row.coded) };

    ghost view = { λ s. record { core = s.kept.value.core } };

    ghost invariant = { λ s. (s.kept.value.spare ≡ no_pages) × AreInTime s.kept.value.core.core.config.threshold (sight_of s.kept.value.core.core).ops s.kept.value.core.core.journal.sealed_at s.kept.value.core.core.journal.history };
}

impl<F: FileSys, D: Disk> SharedCore<F, D> {
    /// Without memory the core comes back.
    pub(crate) fn new(
        alloc: Global,
        core: VolumeCore<F, D>,
    ) -> Result<SharedCore<F, D>, VolumeCore<F, D>>
        requires seals { AreInTime core.core.config.threshold (length core.core.journal.oplog) core.core.journal.sealed_at core.core.journal.history }
        ensures shared { IfOk result (λ shared. shared ≡ record { core = core }) }
        ensures core { IfErr result (λ back. back ≡ core) }
    {
        let kept = Kept {
            core,
            spare: Pages::new(alloc),
        };
        match Box::new(alloc, kept) {
            Ok(kept) => Ok(SharedCore { kept }),
            Err(failed) => {
                let Kept { core, spare: _ } = failed.value;
                Err(core)
            }
        }
    }

    pub(crate) fn into_core(self) -> VolumeCore<F, D>
        ensures core { result ≡ self.core }
        ensures right { IsOrderlyInSight (sight_of result.core) }
    {
        let SharedCore { kept } = self;
        let Kept { core, spare: _ } = Box::into_inner(kept);
        in_order(&core.core);
        core
    }

    /// It is always in order. It does nothing, and shows this to whoever calls it.
    pub(crate) fn in_order(&self)
        ensures { Right D.told D.faults self.now.core.core }
    {
        in_order(&self.kept.core.core);
    }

    /// The file system's code in the core.
    pub(crate) fn code(&self) -> F {
        self.kept.core.core.fs()
    }

    /// One event of a caller's call.
    #[inline(always)]
    pub(crate) fn act<H: Hook>(
        &mut self,
        alloc: Global,
        hook: &mut H,
        attempt: &mut Attempt,
        call: &Call,
        event: Event,
    ) -> Came
        requires on { IsOn call.now (part_of (sight_of self.old.core.core) attempt.old.crossings.caller) attempt.old }
        requires may { MayCome call.now (H.test hook.old) (H.struck hook.old)
            ((sight_of self.old.core.core).seats attempt.old.crossings.caller) attempt.old event }
        ensures grown { GrowsAfter event attempt.old.pages attempt.new.pages }
        ensures comes { ComesOfEvent call.now (H.test hook.old) event
            (sight_of self.old.core.core) (sight_of self.new.core.core) attempt.old attempt.new result }
        ensures rises { RisesAfter (word_for event) (H.faults hook.old) (H.faults hook.new)
            self.old.core.core.journal.records self.new.core.core.journal.records }
        ensures grows { H.faults hook.old ≤ H.faults hook.new }
        ensures test { H.test hook.new ≡ H.test hook.old }
        ensures origin { origin_of self.new ≡ origin_of self.old }
    {
        let kept = &mut *self.kept;
        swap_pages(&mut kept.spare, attempt, &event);
        in_order(&kept.core.core);
        act(alloc, &mut kept.core, hook, attempt, call, event)
    }

    /// Ends a caller's call in flight, which has no entry.
    pub(crate) fn quit(&mut self, caller: u8)
        requires { HasOpenCall self.old.core.core caller }
        ensures quit { (mine : CallerState) → slice_get self.old.core.core.callers caller ≡ Some mine
            → self.new.core.core ≡ with_room (ended self.old.core.core caller mine self.new.core.core.cache.pins) self.new.core.core }
    {
        self.kept.core.core.quit(caller);
    }
}

/// A call that enters has gathered nothing, and one that leaves needs nothing of it any more: its pages are emptied, and
/// swapped for the spare ones.
fn swap_pages(spare: &mut Pages, attempt: &mut Attempt, event: &Event)
    requires { spare.old ≡ no_pages }
    ensures spare { spare.new ≡ no_pages }
    ensures attempt { attempt.new ≡ without_pages event.now attempt.old }
{
    match event {
        Event::Enter | Event::Leave(_) => {
            attempt.pages.clear();
            swap(spare, &mut attempt.pages);
        }
        _ => {}
    }
}

/// A core is always in order. It does nothing, and shows this to whoever calls it.
fn in_order<F: FileSys, D: Disk>(core: &Core<F, D>)
    ensures { Right D.told D.faults core.now }
{
    core.history();
}

impl<F: FileSys, D: Disk> Booked for SharedCore<F, D> {
    type Origin = Origin<D>;

    ghost list = { λ s. s.core.core.journal.history };

    ghost stand = { λ s caller. stand_in (sight_of s.core.core) caller };

    ghost origin = { λ s. record { first = s.core.core.first; config = s.core.core.config } };

    // the number of a caller's call has 32 bits
    ghost always = { λ s. s.core.core.config.most < 4294967296 };

    ghost tally = { λ s. amiss_in (sight_of s.core.core) };

    fn entries(&self) -> u64 {
        self.kept.core.core.history().len() as u64
    }

    fn begun(&self, caller: u8) -> u32 {
        self.kept.core.begun(caller)
    }

    fn show(&self) {
        let _most = self.kept.core.core.config().most;
    }
}
