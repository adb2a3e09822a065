ghost use Rattle.std.specs.Prelude.{◌≡◌, ◌⊎◌, ◌<◌, IfOk, None, Some, length, slice_get};
ghost use Rattle.mb_tree.specs.LocalLaws.{is_shared_call};
ghost use Rattle.mb_tree.specs.PickLaws.{fresh_on};
ghost use Rattle.mb_tree.specs.Plans.{IsPlanFor};
ghost use Rattle.mb_calls.specs.Following.{AreWalksFor, IsRowAlone, KeepsPlan, KeepsPlanFor};
ghost use Rattle.mb_calls.specs.Endings.{Ends, EndsNear, ready_refused};
ghost use Rattle.mb_calls.specs.Performed.{FitsCall, IsNeeded, IsRight};

use crate::halts::Halt;
use crate::planning::plan_call;
use crate::walks::{PathWalks, set_out};
use mb_iface::{Acted, Changes, FileSys, Need, Opens, View};
use mb_kinds::{Call, Errno, Reply};
use mb_tree::{CallPlan, FsOp, Seat, SessionChange, Stop, call_allowed, write_row};
use std::alloc::Global;

/// What a call comes to, before anything is changed.
#[derive(Drop)]
pub struct ReadyCall {
    /// Its reply: a number, bytes, what stat tells, or a refusal.
    pub reply: Reply,
    /// Its one operation on the file system, or none. A refused call has none.
    pub op: Option<FsOp>,
    /// The number of the inode that the operation made.
    pub pick: Option<u16>,
    /// The blocks that the operation changes.
    pub changes: Changes,
    /// The change of its caller's session.
    pub session: SessionChange,
    /// Whether the answer looked at other callers' open files or current directories: exactly for close(2),
    /// unlink(2), rmdir(1) and exit(2).
    pub shared: bool,
}

/// The answer of `perform`.
#[derive(Drop)]
pub enum Performed {
    /// All blocks were there.
    Ready(ReadyCall),
    /// These blocks, which the view lacks, have to be gathered first.
    Need(Need),
    /// It met want of memory, which says nothing of the call.
    NoMemory,
}

/// The plan of a call that is kept until its blocks are there, for the moment at which it was made.
#[derive(Drop)]
pub struct KeptPlan {
    pub moment: u32,
    pub plan: CallPlan,
}

/// The session change with the number of the inode that was made.
fn fresh_on(op: &FsOp, pick: Option<u16>, change: SessionChange) -> SessionChange
    ensures { result ≡ fresh_on op.now pick change }
{
    match op {
        FsOp::Create { .. } => match pick {
            Some(ino) => match change {
                SessionChange::Fresh { fd, how, .. } => SessionChange::Fresh { fd, ino, how },
                other => other,
            },
            None => change,
        },
        _ => change,
    }
}

/// A call that is refused.
fn refused(alloc: Global, shared: bool, error: Errno) -> ReadyCall
    ensures { result ≡ ready_refused shared error }
{
    ReadyCall {
        reply: Reply::Refused(error),
        op: None,
        pick: None,
        changes: Changes::new(alloc),
        session: SessionChange::Same,
        shared,
    }
}

/// A plan with an operation, for a moment.
fn kept_plan(moment: u32, reply: Reply, op: FsOp, session: SessionChange) -> KeptPlan
    ensures { result ≡ record { moment = moment; plan = record { reply = reply; op = Some op; session = session } } }
{
    KeptPlan {
        moment,
        plan: CallPlan {
            reply,
            op: Some(op),
            session,
        },
    }
}

/// Does the operation of a plan, with a free number where it makes an inode.
fn complete<F: FileSys, V: View>(
    alloc: Global,
    fs: &F,
    view: &V,
    opens: &Opens,
    plan: CallPlan,
    shared: bool,
) -> Performed
    ensures ends { Ends (V.shown view.now) opens.now shared plan result }
    ensures near { EndsNear (V.shown view.now) opens.now plan result }
{
    let CallPlan { reply, op, session } = plan;
    let Some(op) = op else {
        return Performed::Ready(ReadyCall {
            reply,
            op: None,
            pick: None,
            changes: Changes::new(alloc),
            session,
            shared,
        });
    };
    match fs.act(alloc, view, opens, &op, None) {
        Acted::Done { changes, pick } => {
            let session = fresh_on(&op, pick, session);
            Performed::Ready(ReadyCall {
                reply,
                op: Some(op),
                pick,
                changes,
                session,
                shared,
            })
        }
        Acted::Refused(error) => Performed::Ready(refused(alloc, shared, error)),
        Acted::Need(need) => Performed::Need(need),
        Acted::NoMemory => Performed::NoMemory,
    }
}

/// Does the operation of a write's plan. Where blocks or memory are lacking for it the plan is kept, for the moment that is
/// told.
fn complete_write<F: FileSys, V: View>(
    alloc: Global,
    fs: &F,
    view: &V,
    opens: &Opens,
    plan: CallPlan,
    shared: bool,
    moment: u32,
    kept: &mut Option<KeptPlan>,
) -> Performed
    ensures ends { Ends (V.shown view.now) opens.now shared plan result }
    ensures near { EndsNear (V.shown view.now) opens.now plan result }
    ensures kept { (kept.new ≡ kept.old) ⊎ (kept.new ≡ Some (record { moment = moment; plan = plan })) }
{
    let CallPlan { reply, op, session } = plan;
    let Some(op) = op else {
        return Performed::Ready(ReadyCall {
            reply,
            op: None,
            pick: None,
            changes: Changes::new(alloc),
            session,
            shared,
        });
    };
    match fs.act(alloc, view, opens, &op, None) {
        Acted::Done { changes, pick } => {
            let session = fresh_on(&op, pick, session);
            Performed::Ready(ReadyCall {
                reply,
                op: Some(op),
                pick,
                changes,
                session,
                shared,
            })
        }
        Acted::Refused(error) => Performed::Ready(refused(alloc, shared, error)),
        Acted::Need(need) => {
            *kept = Some(kept_plan(moment, reply, op, session));
            Performed::Need(need)
        }
        Acted::NoMemory => {
            *kept = Some(kept_plan(moment, reply, op, session));
            Performed::NoMemory
        }
    }
}

/// Whether the answer looks at other callers.
fn is_shared_call(call: &Call) -> bool
    ensures { result ≡ is_shared_call call.now }
{
    matches!(
        call,
        Call::Close { .. } | Call::Unlink { .. } | Call::Rmdir { .. } | Call::Exit
    )
}

/// The session of a declared caller.
pub fn seat_of(sessions: &[Seat], caller: u8) -> &Seat
    requires { caller < length sessions.now }
    ensures { slice_get sessions.now caller ≡ Some result.now }
{
    &sessions[usize::from(caller)]
}

/// Performs a call over gathered blocks, with its paths followed so far.
pub fn perform_on<F: FileSys, V: View>(
    alloc: Global,
    fs: &F,
    view: &V,
    sessions: &[Seat],
    opens: &Opens,
    caller: u8,
    call: &Call,
    moment: u32,
    walks: &PathWalks,
) -> Performed
    requires declared { caller < length sessions.now }
    requires going { AreWalksFor (V.shown view.now) sessions.now caller call.now walks.now }
    ensures right { IsRight (V.shown view.now) sessions.now opens.now caller call.now moment result }
    ensures needed { IsNeeded (V.shown view.now) sessions.now opens.now caller call.now result }
    ensures fit { FitsCall sessions.now caller call.now result }
{
    call_allowed(call);
    let seat = seat_of(sessions, caller);
    let shared = is_shared_call(call);
    match plan_call(alloc, fs, view, sessions, opens, seat, call, moment, walks) {
        Ok(plan) => complete(alloc, fs, view, opens, plan, shared),
        Err(stop) => match stop {
            Halt::Refused(error) => Performed::Ready(refused(alloc, shared, error)),
            Halt::Need(need) => Performed::Need(need),
            Halt::NoMemory => Performed::NoMemory,
        },
    }
}

/// The plan of a write at a moment: the one that is kept for that moment, else a new one. None is kept any longer. A call
/// of another kind has none here.
fn plan_of_write(
    alloc: Global,
    seat: &Seat,
    call: &Call,
    moment: u32,
    kept: &mut Option<KeptPlan>,
) -> Result<CallPlan, Stop>
    requires kept { KeepsPlan seat.now call.now kept.old }
    ensures kept { kept.new ≡ None }
    ensures row { IsRowAlone seat.now call.now moment result }
    ensures ready { IfOk result (λ plan. IsPlanFor seat.now plan) }
{
    if let Some(planned) = kept.take() {
        if planned.moment == moment {
            return Ok(planned.plan);
        }
    }
    match call {
        Call::Write { fd, bytes } => write_row(alloc, seat, *fd, bytes, moment),
        _ => Err(Stop::NoMemory),
    }
}

/// Performs a write over gathered blocks. Its plan has a copy of all its bytes, so it is kept where blocks are lacking, and
/// is not made again for the same moment.
pub fn write_on<F: FileSys, V: View>(
    alloc: Global,
    fs: &F,
    view: &V,
    sessions: &[Seat],
    opens: &Opens,
    caller: u8,
    call: &Call,
    moment: u32,
    kept: &mut Option<KeptPlan>,
) -> Performed
    requires declared { caller < length sessions.now }
    requires kept { KeepsPlanFor sessions.now caller call.now kept.old }
    ensures kept { KeepsPlanFor sessions.now caller call.now kept.new }
    ensures right { IsRight (V.shown view.now) sessions.now opens.now caller call.now moment result }
    ensures needed { IsNeeded (V.shown view.now) sessions.now opens.now caller call.now result }
    ensures fit { FitsCall sessions.now caller call.now result }
{
    call_allowed(call);
    let seat = seat_of(sessions, caller);
    let shared = is_shared_call(call);
    match plan_of_write(alloc, seat, call, moment, kept) {
        Ok(plan) => complete_write(alloc, fs, view, opens, plan, shared, moment, kept),
        Err(stop) => match stop {
            Stop::Refused(error) => Performed::Ready(refused(alloc, shared, error)),
            Stop::NoMemory => Performed::NoMemory,
        },
    }
}

/// Performs a call of a declared caller over gathered blocks: all questions of its row are asked, then it is
/// decided, then its one operation is done. `sessions` are those of all callers, `opens` the counts of their
/// open files, `moment` the time of the call. On every view it returns.
pub fn perform<F: FileSys, V: View>(
    alloc: Global,
    fs: &F,
    view: &V,
    sessions: &[Seat],
    opens: &Opens,
    caller: u8,
    call: &Call,
    moment: u32,
) -> Performed
    requires declared { caller < length sessions.now }
    ensures right { IsRight (V.shown view.now) sessions.now opens.now caller call.now moment result }
    ensures needed { IsNeeded (V.shown view.now) sessions.now opens.now caller call.now result }
    ensures fit { FitsCall sessions.now caller call.now result }
{
    let seat = seat_of(sessions, caller);
    perform_on(
        alloc,
        fs,
        view,
        sessions,
        opens,
        caller,
        call,
        moment,
        &set_out(seat),
    )
}
