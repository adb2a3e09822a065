ghost use Rattle.std.specs.Prelude.{◌≡◌, ◌≤◌, ◌⊎◌, true, None, Some, IfSome, length};
ghost use Rattle.mb_recover.specs.Steps.{AsksAt, CountsAt, Drops, HasStruckCause, IsMet, IsStruck, IsUnfired, IsUnheard, PassesLimit, Recovers, Remounts, Replays, RunsFor, caller_of, counted_if, next_if};
ghost use Rattle.mb_core_events.specs.Callings.{HasCall, MayMeetFault, phase_now};
ghost use Rattle.mb_edge.specs.Causes.{Rose};
ghost use Rattle.mb_edge.specs.declared.crossings.Crossings.{Crossings};

use mb_cache::ReadFault;
use mb_core_events::Core;
use mb_core_state::Phase;
use mb_edge::{Crossing, Crossings, Disk, Hook, NoMemory, Word};
use mb_iface::FileSys;
use mb_kinds::{Kind, Ticket};
use std::alloc::Global;

/// What a step of a recovery came to.
#[derive(Clone, Copy, Debug, PartialEq, Eq, Drop)]
pub enum Stepped {
    /// No recovery is in progress. Nothing changed.
    Idle,
    /// The call with this ticket was unwound, and stays a call in flight.
    Unwound(Ticket),
    /// The volume was given up, at so many faults.
    Failed { faults: u32 },
    /// The dirty pages were dropped.
    Dropped,
    /// The file system was started anew, and the operation log was folded.
    Remounted,
    /// The open files are those of the last checkpoint.
    Reopened,
    /// The operation with this number, from 1, was done again.
    Replayed(u32),
    /// The volume runs again.
    Resumed,
    /// The hook faulted in this step, and the recovery begins anew; so many faults struck.
    Again { faults: u32 },
    /// The disk failed, and the recovery stands where it stood.
    Device,
    /// There was no memory, and the recovery stands where it stood.
    NoMemory,
}

/// Makes the next step of a recovery. `by` holds the crossings of the call that runs the step, which is in flight and has
/// no entry; where it is `None` no hook is asked. The start of the file system and each operation that is done again are
/// fault points: there alone the hook is asked, before all else, at the next crossing of that kind. Its count of faults never
/// falls, and rose where the recovery was struck.
pub fn recover_step<F: FileSys, D: Disk, H: Hook>(
    alloc: Global,
    core: &mut Core<F, D>,
    by: &mut Option<Crossings>,
    hook: &mut H,
) -> Stepped
    requires { IfSome by.old (RunsFor core.old) }
    ensures recovers { Recovers D.told D.faults core.old core.new by.old (H.test hook.old) (H.strokes hook.new) result }
    ensures later { D.faults core.old.cache.disk ≤ D.faults core.new.cache.disk }
    ensures counted { CountsAt (phase_now core.old) by.old by.new }
    ensures asked { AsksAt (phase_now core.old) by.old hook.old hook.new }
    ensures heard { IsUnheard (H.test hook.old) (H.struck hook.new) by.old result }
    ensures cause { HasStruckCause (phase_now core.old) (H.faults hook.old) (H.faults hook.new) result }
    ensures test { H.test hook.new ≡ H.test hook.old }
{
    match core.phase() {
        Phase::Idle => Stepped::Idle,
        Phase::Unwind => Stepped::Unwound(core.unwind()),
        Phase::Drop => drop_pages(core),
        Phase::Remount => remount(alloc, core, by, hook),
        Phase::Reopen => match core.reopen(alloc) {
            Ok(()) => Stepped::Reopened,
            Err(NoMemory) => Stepped::NoMemory,
        },
        Phase::Replay(number) => replay(alloc, core, by, hook, number),
        Phase::Resume => match core.resume() {
            Ok(()) => Stepped::Resumed,
            Err(NoMemory) => Stepped::NoMemory,
        },
    }
}

/// The dirty pages are dropped, or the volume is given up where more faults struck than are recovered from.
fn drop_pages<F: FileSys, D: Disk>(core: &mut Core<F, D>) -> Stepped
    requires { phase_now core.old ≡ Phase.Drop }
    ensures drops { Drops core.old core.new result }
    ensures later { D.faults core.old.cache.disk ≤ D.faults core.new.cache.disk }
{
    let faults = core.records().len() as u32;
    if faults > core.config().limit {
        core.give_up();
        Stepped::Failed { faults }
    } else {
        core.drop_pages();
        Stepped::Dropped
    }
}

/// The file system is started anew and the log is folded, where the hook does not fault.
fn remount<F: FileSys, D: Disk, H: Hook>(
    alloc: Global,
    core: &mut Core<F, D>,
    by: &mut Option<Crossings>,
    hook: &mut H,
) -> Stepped
    requires phase { phase_now core.old ≡ Phase.Remount }
    requires by { IfSome by.old (RunsFor core.old) }
    ensures remounts { Remounts D.faults core.old core.new (caller_of by.old) result
        ⊎ IsMet core.old core.new by.old (H.test hook.old) (H.strokes hook.new) result }
    ensures later { D.faults core.old.cache.disk ≤ D.faults core.new.cache.disk }
    ensures counted { by.new ≡ counted_if Kind.Remount by.old }
    ensures unasked { by.old ≡ None → hook.new ≡ hook.old }
    ensures heard { IsUnheard (H.test hook.old) (H.struck hook.new) by.old result }
    ensures cause { HasStruckCause (phase_now core.old) (H.faults hook.old) (H.faults hook.new) result }
    ensures test { H.test hook.new ≡ H.test hook.old }
{
    if let Some(at) = meets(by, hook, Kind::Remount) {
        return strike(core, at, hook);
    }
    callers_declared(core);
    match core.remount(alloc, caller_of(by)) {
        Ok(()) => Stepped::Remounted,
        Err(ReadFault::Device) => Stepped::Device,
        Err(ReadFault::NoMemory) => Stepped::NoMemory,
    }
}

/// The next operation of the log is done again, where the hook does not fault.
fn replay<F: FileSys, D: Disk, H: Hook>(
    alloc: Global,
    core: &mut Core<F, D>,
    by: &mut Option<Crossings>,
    hook: &mut H,
    number: u32,
) -> Stepped
    requires phase { phase_now core.old ≡ Phase.Replay number }
    requires by { IfSome by.old (RunsFor core.old) }
    ensures replays { Replays D.told D.faults core.old core.new (caller_of by.old) result
        ⊎ IsMet core.old core.new by.old (H.test hook.old) (H.strokes hook.new) result }
    ensures later { D.faults core.old.cache.disk ≤ D.faults core.new.cache.disk }
    ensures counted { by.new ≡ counted_if Kind.Replay by.old }
    ensures unasked { by.old ≡ None → hook.new ≡ hook.old }
    ensures heard { IsUnheard (H.test hook.old) (H.struck hook.new) by.old result }
    ensures cause { HasStruckCause (phase_now core.old) (H.faults hook.old) (H.faults hook.new) result }
    ensures test { H.test hook.new ≡ H.test hook.old }
{
    if let Some(at) = meets(by, hook, Kind::Replay) {
        return strike(core, at, hook);
    }
    callers_declared(core);
    match core.replay_one(alloc, caller_of(by)) {
        Ok(()) => Stepped::Replayed(number),
        Err(ReadFault::Device) => Stepped::Device,
        Err(ReadFault::NoMemory) => Stepped::NoMemory,
    }
}

/// A core has a state for each declared caller. It does nothing, and shows this to whoever calls it.
fn callers_declared<F: FileSys, D: Disk>(core: &Core<F, D>)
    ensures { length core.now.callers ≡ length core.now.config.callers }
{
    core.history();
}

/// The caller of the call that runs the step.
fn caller_of(by: &Option<Crossings>) -> Option<u8>
    ensures { result ≡ caller_of by.now }
{
    match by {
        Some(crossings) => Some(crossings.caller),
        None => None,
    }
}

/// Asks the hook at the next crossing of that kind, which is counted: the crossing, where the hook faults there.
fn meets<H: Hook>(by: &mut Option<Crossings>, hook: &mut H, kind: Kind) -> Option<Crossing>
    ensures counted { by.new ≡ counted_if kind by.old }
    ensures unasked { by.old ≡ None → hook.new ≡ hook.old }
    ensures met { IfSome result (λ at. (at.kind ≡ kind) × (next_if kind by.old ≡ Some at) × (H.struck hook.new ≡ Some at)) }
    ensures tested { IfSome result (λ at. IfSome (H.test hook.old) (λ fires. fires at ≡ true)) }
    ensures heard { IfSome by.old (λ (passed : Crossings). H.struck hook.new ≡ result) }
    ensures unfired { result ≡ None → IfSome by.old (λ (passed : Crossings). IsUnfired (H.test hook.old) kind passed) }
    ensures later { H.faults hook.old ≤ H.faults hook.new }
    ensures rose { IfSome result (λ at. Rose (H.faults hook.old) (H.faults hook.new)) }
    ensures test { H.test hook.new ≡ H.test hook.old }
{
    let Some(mut crossings) = *by else {
        return None;
    };
    let at = crossings.next(kind);
    *by = Some(crossings);
    match hook.cross(&at) {
        Word::Fault => Some(at),
        Word::Go => None,
    }
}

/// A fault strikes the recovery, which begins anew, or fails at once where the limit is passed.
fn strike<F: FileSys, D: Disk, H: Hook>(core: &mut Core<F, D>, at: Crossing, hook: &H) -> Stepped
    requires phase { MayMeetFault (phase_now core.old) }
    requires of { (of : HasCall core.old at.caller) × (at.ordinal ≡ of.flight.ordinal) }
    requires struck { H.struck hook.now ≡ Some at }
    ensures struck { IsStruck core.old core.new at (H.strokes hook.now) result }
    ensures later { D.faults core.old.cache.disk ≤ D.faults core.new.cache.disk }
{
    match core.strike(at.caller, at.kind, at.nth, hook) {
        Ok(faults) => pass_limit(core, faults),
        Err(NoMemory) => Stepped::NoMemory,
    }
}

/// The recovery begins anew after a fault with that number, or the volume is given up where the limit is passed.
fn pass_limit<F: FileSys, D: Disk>(core: &mut Core<F, D>, faults: u32) -> Stepped
    requires phase { phase_now core.old ≡ Phase.Drop }
    requires faults { faults ≡ length core.old.journal.records }
    ensures passes { PassesLimit core.old core.new faults result }
    ensures later { D.faults core.old.cache.disk ≤ D.faults core.new.cache.disk }
{
    if faults > core.config().limit {
        core.give_up();
        Stepped::Failed { faults }
    } else {
        Stepped::Again { faults }
    }
}
