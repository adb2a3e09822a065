ghost use Rattle.std.specs.Prelude.{◌≡◌, ◌≤◌, IfSome, length};
ghost use Rattle.mb_core_spec.specs.Right.{Right};
ghost use Rattle.mb_core_spec.specs.declared.config.Config.{Config};
ghost use Rattle.mb_run.specs.CoreSight.{sight_of};
ghost use Rattle.mb_run.specs.Seals.{is_due};
ghost use Rattle.mb_run.specs.Served.{AreSixCounts};
ghost use Rattle.mb_volume_core.specs.Flushes.{FlushesAfter};
ghost use Rattle.mb_volume_core.specs.Seals.{SealsAfter};

use crate::answers::{as_ready, entered_as, stepped_as};
use mb_cache::Flushed;
use mb_callers::{Pages, least_stale_block};
use mb_calls::{Performed, Performing, ReadyCall};
use mb_core_events::Core;
use mb_core_spec::{Config, Stage};
use mb_core_state::{Fault, Finished, Gathered, Left};
use mb_edge::{Crossings, Disk, Hook, NoMemory};
use mb_iface::{FileSys, Need};
use mb_kinds::{Call, Kind, Ticket};
use mb_recover::recover_step;
use mb_run::{EnterAnswer, EventCore, StepAnswer};
use std::alloc::Global;

/// What a core was begun on: its first disk, as it was then, and what it was begun with. Contracts alone speak of it.
pub struct Origin<D: Disk> {
    pub first: D,
    pub config: Config,
}

/// The event core of a volume, as the driver of a job calls it.
pub struct VolumeCore<F: FileSys, D: Disk> {
    pub core: Core<F, D>,
}

/// A core is always in order. It does nothing, and shows this to whoever calls it.
fn in_order<F: FileSys, D: Disk>(core: &Core<F, D>)
    ensures { Right D.told D.faults core.now }
{
    core.history();
}

/// A call has six counts, each of 32 bits. It does nothing, and shows this to whoever calls it.
fn counts_fit(by: &Option<Crossings>)
    ensures { IfSome by.now AreSixCounts }
{
    if let Some(crossings) = by {
        let [_enter, _gather, _finish, _leave, _remount, _replay] = crossings.counts;
    }
}

/// Whether a checkpoint is due after a call: after `sync(2)`, and once as many operations are logged as the threshold says.
fn is_due<F: FileSys, D: Disk>(core: &Core<F, D>, call: &Call) -> bool
    ensures { result ≡ is_due core.now.config.threshold (length core.now.journal.oplog) call.now }
{
    core.logged() >= core.config().threshold || matches!(call, Call::Sync)
}

/// Takes the checkpoint that is due where a call was logged. With the call came room for it.
fn seal_if_due<F: FileSys, D: Disk>(core: &mut Core<F, D>, finished: &Finished, call: &Call)
    requires runs { finished.now ≡ Finished.Logged → core.old.stage ≡ Stage.Running }
    requires room { finished.now ≡ Finished.Logged → 11 ≤ core.old.journal.room.trail }
    requires right { Right D.told D.faults core.old }
    ensures seals { SealsAfter finished.now call.now core.old core.new }
    ensures first { core.new.first ≡ core.old.first }
    ensures config { core.new.config ≡ core.old.config }
    ensures right { Right D.told D.faults core.new }
{
    let Finished::Logged = finished else {
        return;
    };
    if is_due(core, call) {
        match core.seal() {
            Ok(()) => {}
            Err(_) => unreachable!(),
        }
    }
}

/// Writes one checkpointed page back where a call left. Where the disk fails, the page waits on.
fn write_behind<F: FileSys, D: Disk>(core: &mut Core<F, D>, left: &Left)
    requires right { Right D.told D.faults core.old }
    ensures flushes { FlushesAfter D.told D.faults left.now core.old core.new }
    ensures right { Right D.told D.faults core.new }
{
    let Left::Left(_) = left else {
        return;
    };
    let _ = core.flush_one();
}

impl<F: FileSys, D: Disk> EventCore for VolumeCore<F, D> {
    type Origin = Origin<D>;

    ghost sight = { λ c. sight_of c.core };

    ghost faults = { λ c. D.faults c.core.cache.disk };

    ghost origin = { λ c. record { first = c.core.first; config = c.core.config } };

    fn stage(&self) -> Stage {
        self.core.stage()
    }

    fn config(&self) -> &Config {
        self.core.config()
    }

    fn logged(&self) -> u32 {
        self.core.logged()
    }

    fn begun(&self, caller: u8) -> u32 {
        in_order(&self.core);
        self.core.begun(caller)
    }

    fn perform(
        &self,
        alloc: Global,
        pages: &Pages,
        ticket: &Ticket,
        call: &Call,
        way: &mut Option<Performing>,
    ) -> Performed {
        let fs = self.core.fs();
        let Some(sessions) = pages.sessions() else {
            unreachable!()
        };
        let Some(opens) = pages.opens() else {
            unreachable!()
        };
        let seats = sessions.as_slice();
        let on = way.get_or_insert(Performing::new(&seats[usize::from(ticket.caller)]));
        on.go(
            alloc,
            &fs,
            pages,
            seats,
            opens,
            ticket.caller,
            call,
            ticket.moment,
        )
    }

    fn enter(&mut self, alloc: Global, caller: u8, call: &Call) -> EnterAnswer {
        in_order(&self.core);
        entered_as(self.core.enter(alloc, caller, call))
    }

    fn gather(
        &mut self,
        alloc: Global,
        ticket: &Ticket,
        need: Need,
        pages: &mut Pages,
    ) -> Gathered {
        in_order(&self.core);
        self.core.gather(alloc, ticket, need, pages)
    }

    fn finish(
        &mut self,
        alloc: Global,
        ticket: &Ticket,
        pages: &Pages,
        call: &Call,
        ready: ReadyCall,
    ) -> Finished {
        in_order(&self.core);
        least_stale_block();
        let finished = self.core.finish(alloc, ticket, pages, as_ready(ready));
        seal_if_due(&mut self.core, &finished, call);
        finished
    }

    fn leave(&mut self, ticket: &Ticket) -> Left {
        in_order(&self.core);
        let left = self.core.leave(ticket);
        write_behind(&mut self.core, &left);
        left
    }

    fn fault<H: Hook>(&mut self, ticket: &Ticket, kind: Kind, nth: u32, hook: &H) -> Fault {
        in_order(&self.core);
        self.core.fault(ticket, kind, nth, hook)
    }

    fn recover_step<H: Hook>(
        &mut self,
        alloc: Global,
        by: &mut Option<Crossings>,
        hook: &mut H,
    ) -> StepAnswer {
        in_order(&self.core);
        counts_fit(by);
        let stepped = recover_step(alloc, &mut self.core, by, hook);
        in_order(&self.core);
        stepped_as(stepped)
    }

    fn quit(&mut self, caller: u8) {
        self.core.quit(caller);
    }

    fn seal(&mut self) -> Result<(), NoMemory> {
        self.core.seal()
    }

    fn flush_one(&mut self) -> Flushed {
        self.core.flush_one()
    }
}
