ghost use Rattle.std.specs.Prelude.{◌≡◌, ◌<◌, ◌≤◌, length, None, IfOk, IfErr, OnErr};
ghost use Rattle.std.specs.List.{AllByRecursion};
ghost use mathlib.Core.List.{IsPrefix};
ghost use Rattle.mb_kinds.specs.Own.{own};
ghost use Rattle.mb_run.specs.CoreSight.{sight_of};
ghost use Rattle.mb_run.specs.Rising.{RisesWith};
ghost use Rattle.mb_run.specs.Seals.{AreInTime};
ghost use Rattle.mb_run.specs.Sights.{IsOrderlyInSight, amiss_in};
ghost use Rattle.mb_turn.specs.Passes.{IsIdle, dealt};
ghost use Rattle.mb_volume.specs.Called.{IsAnsweredWith, CallIsGivenUp, TakesPlannedFaults};
ghost use Rattle.mb_volume.specs.Parts.{stand_in};
ghost use Rattle.mb_volume.specs.Passing.{IsLater, IsMaking, part_in, seen_by};

use crate::events::Came;
use crate::shared::SharedCore;
use mb_edge::{Disk, Hook, NoMemory};
use mb_iface::FileSys;
use mb_kinds::{Call, Reply};
use mb_run::EventCore;
use mb_turn::{Pass, PassList, Turn};
use mb_volume_core::VolumeCore;
use std::alloc::Global;
use std::marker::Model;
use std::sync::Wait;
use std::thread;

/// A volume that several callers use at once, each by its pass.
pub struct Volume<F: FileSys, D: Disk> {
    pub(crate) turn: Turn<SharedCore<F, D>>,
}

impl<F: FileSys, D: Disk> Model for Volume<F, D> {
    ghost use Rattle.mb_turn.specs.Passes.{Room};

    ghost Value = { Room };

    ghost view = { λ v. v.turn };
}

impl<F: FileSys, D: Disk> Volume<F, D> {
    /// Shares a core: one pass for each caller that it was begun for, in their order. Without memory the core comes back.
    pub fn start(
        alloc: Global,
        core: VolumeCore<F, D>,
    ) -> Result<(Volume<F, D>, PassList<SharedCore<F, D>>), VolumeCore<F, D>>
        requires seals { AreInTime core.core.config.threshold (length core.core.journal.oplog) core.core.journal.sealed_at core.core.journal.history }
        ensures callers { IfOk result (λ started. started.0.callers ≡ (sight_of core.core).config.callers) }
        ensures passes { IfOk result (λ started.
            started.1.items ≡ dealt started.0.table (sight_of core.core).config.callers (record { core = core })) }
        ensures core { IfErr result (λ back. back ≡ core) }
    {
        let callers = core.config().callers.as_slice().len() as u8;
        let shared = SharedCore::new(alloc, core)?;
        match Turn::start(alloc, shared, callers) {
            Ok((turn, passes)) => Ok((Volume { turn }, passes)),
            Err(shared) => Err(shared.into_core()),
        }
    }

    /// Makes one call of the pass's caller, which has none in flight and may begin one more. It may wait for other
    /// callers. The reply stands in the core's history. After `NoMemory` the call has no entry there. With each fault record
    /// that came, the fault injector's count rose. A call with a plain reply met one fault of its own at most. Where the reply
    /// is plain and the fault injector tells its test, no fault at the call's first fault point of a kind was passed over: of
    /// the four where it enters, gathers, finishes and leaves, the count rose by one at least for each at which the test holds.
    pub fn call<H: Hook, R: Wait>(
        &self,
        rt: &R,
        alloc: Global,
        pass: &mut Pass<SharedCore<F, D>>,
        hook: &mut H,
        call: &Call,
    ) -> Result<Reply, NoMemory>
        requires idle { IsIdle self.now.table pass.old }
        requires free { (part_in pass.old).seat.flight ≡ None }
        requires most { (part_in pass.old).seat.begun < (part_in pass.old).config.most }
        ensures later { IsLater self.now.table pass.old pass.new }
        ensures ok { IfOk result (IsAnsweredWith call.now (H.test hook.old) pass.old.caller (part_in pass.old) (part_in pass.new)) }
        ensures err { OnErr result (CallIsGivenUp (H.test hook.old) pass.old.caller (part_in pass.old) (part_in pass.new)) }
        ensures rises { RisesWith (H.faults hook.old) (H.faults hook.new) (part_in pass.old).struck (part_in pass.new).struck }
        ensures taken { IfOk result (TakesPlannedFaults (H.test hook.old) pass.old.caller (part_in pass.old) (H.faults hook.old) (H.faults hook.new)) }
        ensures test { H.test hook.new ≡ H.test hook.old }
    {
        let mut attempt = self.begin(alloc, pass);
        let mut code = None;
        let mut way = None;
        let mut shut = false;
        for _ in rt.forever() {
            match self.step(
                rt,
                alloc,
                pass,
                hook,
                &mut attempt,
                &mut code,
                &mut way,
                shut,
                call,
            ) {
                Came::Answered(reply) => return Ok(reply),
                Came::NoMemory => {
                    self.give_up(rt, pass, &attempt);
                    return Err(NoMemory);
                }
                Came::Shut => shut = true,
                Came::Busy => {
                    shut = false;
                    thread::yield_now();
                }
                Came::Inside(_) => shut = false,
                Came::On => shut = false,
            }
        }
        unreachable!()
    }

    /// Wakes a caller that waits for the volume: for one that makes no call any more. Nothing else happens.
    pub fn wake(&self) {
        self.turn.wake();
    }

    /// Ends the sharing, with all passes, and gives the core back.
    pub fn close(self, passes: PassList<SharedCore<F, D>>) -> VolumeCore<F, D>
        requires all { length passes.items ≡ self.callers }
        requires idle { AllByRecursion (IsIdle self.table) passes.items }
        ensures first { AllByRecursion (λ pass. result.core.first ≡ pass.value.core.core.first) passes.items }
        ensures config { AllByRecursion (λ pass. result.core.config ≡ pass.value.core.core.config) passes.items }
        ensures seen { AllByRecursion (λ pass. IsPrefix (seen_by pass).history (sight_of result.core).history) passes.items }
        ensures mine { AllByRecursion (λ pass.
            own (sight_of result.core).history pass.caller ≡ (part_in pass).entries) passes.items }
        ensures stand { AllByRecursion (λ pass.
            stand_in (sight_of result.core) pass.caller ≡ stand_in (seen_by pass) pass.caller) passes.items }
        ensures seals { AllByRecursion (λ pass. amiss_in (sight_of result.core) ≤ amiss_in (seen_by pass)) passes.items }
        ensures right { IsOrderlyInSight (sight_of result.core) }
    {
        let Volume { turn } = self;
        turn.close(passes).into_core()
    }
}
