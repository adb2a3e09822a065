ghost use Rattle.std.specs.Prelude.{◌≡◌, ◌≢◌, ◌≤◌, ◌⊎◌, true, false};
ghost use Rattle.mb_core_spec.specs.declared.stages.Stage.TheVariants as stage;
ghost use Rattle.mb_edge.specs.Causes.{Rose};
ghost use Rattle.mb_run.specs.Lengths.{CalmsForward, GoesForward};
ghost use Rattle.mb_run.specs.Settling.{Calms, IsCutShort, IsFlushed, IsSettled, KeepsHistory, SealsAtEnd};
ghost use Rattle.mb_run.specs.Sights.{IsOrderlyInSight, recovers, undue_in};
ghost use Rattle.mb_run.specs.declared.settles.SettleEnd.TheVariants as end;
ghost use Rattle.std.specs.Prelude.{Some};

use crate::answers::StepAnswer;
use crate::event_core::EventCore;
use crate::orders::seal_now;
use mb_cache::Flushed;
use mb_edge::Calm;
use std::alloc::Global;

/// How the end of a run went.
#[derive(Clone, Copy, Debug, PartialEq, Eq, Drop)]
pub enum SettleEnd {
    /// No recovery is in progress and no page waits.
    Clean,
    /// The disk failed: its count of faults rose.
    Device,
    /// A step met want of memory.
    NoMemory,
}

/// What the end of a run left.
pub struct Settled<C: EventCore> {
    pub core: C,
    pub end: SettleEnd,
}

/// One step of a recovery, without a fault injector; `None` where more may come.
fn calm_step<C: EventCore>(alloc: Global, core: &mut C) -> Option<SettleEnd>
    requires right { IsOrderlyInSight (C.sight core.old) }
    ensures keeps { KeepsHistory (C.sight core.old) (C.sight core.new) }
    ensures calms { Calms (C.sight core.old) (C.sight core.new) result }
    ensures forward { CalmsForward (C.sight core.old) (C.sight core.new) result }
    ensures seals { undue_in (C.sight core.new) ≤ undue_in (C.sight core.old) }
    ensures device { result ≡ Some end.Device → Rose (C.faults core.old) (C.faults core.new) }
    ensures later { C.faults core.old ≤ C.faults core.new }
    ensures origin { C.origin core.new ≡ C.origin core.old }
    ensures right { IsOrderlyInSight (C.sight core.new) }
{
    let mut hook = Calm;
    let mut by = None;
    match core.recover_step(alloc, &mut by, &mut hook) {
        StepAnswer::Idle => return Some(SettleEnd::Clean),
        StepAnswer::Failed { .. } => return Some(SettleEnd::Clean),
        StepAnswer::Resumed => return Some(SettleEnd::Clean),
        StepAnswer::Device => return Some(SettleEnd::Device),
        StepAnswer::NoMemory => return Some(SettleEnd::NoMemory),
        StepAnswer::Unwound(_) => return None,
        StepAnswer::Dropped => return None,
        StepAnswer::Remounted => return None,
        StepAnswer::Reopened => return None,
        StepAnswer::Replayed(_) => return None,
        StepAnswer::Again { .. } => unreachable!(),
    }
}

/// The steps of a recovery that is in progress, without a fault injector.
fn recover_calmly<C: EventCore>(alloc: Global, core: &mut C) -> SettleEnd
    requires right { IsOrderlyInSight (C.sight core.old) }
    ensures keeps { KeepsHistory (C.sight core.old) (C.sight core.new) }
    ensures over { result ≡ end.Clean → recovers (C.sight core.new).stage ≡ false }
    ensures broken { result ≡ end.Device → recovers (C.sight core.new).stage ≡ true }
    ensures forward { ((C.sight core.new).stage ≡ stage.Failed) ⊎ GoesForward (C.sight core.old) (C.sight core.new) }
    ensures seals { undue_in (C.sight core.new) ≤ undue_in (C.sight core.old) }
    ensures device { result ≡ end.Device → Rose (C.faults core.old) (C.faults core.new) }
    ensures later { C.faults core.old ≤ C.faults core.new }
    ensures origin { C.origin core.new ≡ C.origin core.old }
    ensures right { IsOrderlyInSight (C.sight core.new) }
{
    'steps: loop {
        if let Some(end) = calm_step(alloc, core) {
            return end;
        }
    }
}

/// Writes the checkpointed pages back, one after another.
fn flush_all<C: EventCore>(core: &mut C) -> SettleEnd
    requires right { IsOrderlyInSight (C.sight core.old) }
    ensures flushed { IsFlushed (C.sight core.old) (C.sight core.new) result }
    ensures device { result ≡ end.Device → Rose (C.faults core.old) (C.faults core.new) }
    ensures later { C.faults core.old ≤ C.faults core.new }
    ensures origin { C.origin core.new ≡ C.origin core.old }
    ensures right { IsOrderlyInSight (C.sight core.new) }
{
    'pages: loop {
        match core.flush_one() {
            Flushed::One => {}
            Flushed::Clean => return SettleEnd::Clean,
            Flushed::Device => return SettleEnd::Device,
        }
    }
}

fn settle_core<C: EventCore>(alloc: Global, core: &mut C) -> SettleEnd
    requires right { IsOrderlyInSight (C.sight core.old) }
    ensures settled { result ≡ end.Clean → IsSettled (C.sight core.old) (C.sight core.new) }
    ensures cut { result ≡ end.Device → IsCutShort (C.sight core.new) }
    ensures keeps { KeepsHistory (C.sight core.old) (C.sight core.new) }
    ensures seals { result ≢ end.NoMemory → SealsAtEnd (C.sight core.old) (C.sight core.new) }
    ensures device { result ≡ end.Device → Rose (C.faults core.old) (C.faults core.new) }
    ensures origin { C.origin core.new ≡ C.origin core.old }
    ensures right { IsOrderlyInSight (C.sight core.new) }
{
    match recover_calmly(alloc, core) {
        SettleEnd::Clean => {}
        SettleEnd::Device => return SettleEnd::Device,
        SettleEnd::NoMemory => return SettleEnd::NoMemory,
    }
    if !seal_now(core) {
        return SettleEnd::NoMemory;
    }
    flush_all(core)
}

/// Ends a run: a recovery in progress is made without a fault injector, a running volume gets a checkpoint, and the
/// checkpointed pages are written back. The first fault of the disk ends this: in the recovery, or with pages that wait.
/// History and fault records stay, and that checkpoint is the only one that is taken where none is due.
pub fn settle<C: EventCore>(alloc: Global, core: C) -> Settled<C>
    requires right { IsOrderlyInSight (C.sight core) }
    ensures settled { result.end ≡ end.Clean → IsSettled (C.sight core) (C.sight result.core) }
    ensures cut { result.end ≡ end.Device → IsCutShort (C.sight result.core) }
    ensures keeps { KeepsHistory (C.sight core) (C.sight result.core) }
    ensures seals { result.end ≢ end.NoMemory → SealsAtEnd (C.sight core) (C.sight result.core) }
    ensures device { result.end ≡ end.Device → Rose (C.faults core) (C.faults result.core) }
    ensures origin { C.origin result.core ≡ C.origin core }
    ensures right { IsOrderlyInSight (C.sight result.core) }
{
    let mut core = core;
    let end = settle_core(alloc, &mut core);
    Settled { core, end }
}
