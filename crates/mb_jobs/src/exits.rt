ghost use Rattle.std.specs.Prelude.{◌≡◌, ◌≤◌, ◌+◌, ◌++◌, length, IfOk, OnOk};
ghost use Rattle.mb_jobs.specs.Lists.{added_exit, exit_at, exits_from, has_call, has_ended, lacks_exit, with_exits};

use crate::jobs::{Caller, JobCall};
use crate::lists::is_exit;
use crate::texts::Text;
use mb_kinds::Call;
use std::alloc::{AllocError, Global};

fn has_call(calls: &[JobCall], caller: u8) -> bool
    ensures { result ≡ has_call calls.now caller }
{
    calls.iter().any(|call| call.caller == caller)
}

fn has_ended(calls: &[JobCall], caller: u8) -> bool
    ensures { result ≡ has_ended calls.now caller }
{
    calls
        .iter()
        .any(|call| call.caller == caller && is_exit(&call.call))
}

/// Whether a caller has a call and has not ended.
fn lacks_exit(calls: &[JobCall], caller: u8) -> bool
    ensures { result ≡ lacks_exit calls.now caller }
{
    has_call(calls, caller) && !has_ended(calls, caller)
}

/// The `exit` that is added for a caller.
fn added_exit(alloc: Global, caller: u8) -> Result<JobCall, AllocError>
    ensures { IfOk result (λ call. call ≡ added_exit caller) }
{
    Ok(JobCall {
        caller,
        text: Text::from_vec(b"exit".to_vec(alloc)?),
        call: Call::Exit,
    })
}

/// Adds the `exit` of the caller at a place, where it has a call and has not ended.
fn add_exit(
    alloc: Global,
    calls: &[JobCall],
    place: u8,
    exits: &mut Vec<JobCall>,
) -> Result<(), AllocError>
    ensures exact { OnOk result (exits.new.items ≡ exits.old.items ++ exit_at calls.now place) }
    ensures few { OnOk result (length exits.new.items ≤ length exits.old.items + 1) }
{
    if lacks_exit(calls, place) {
        exits.push(added_exit(alloc, place)?)?;
    }
    Ok(())
}

/// The calls that are added, in the callers' order.
fn exits_of(
    alloc: Global,
    callers: &[Caller],
    calls: &[JobCall],
) -> Result<Vec<JobCall>, AllocError>
    requires few { length callers.now ≤ 8 }
    ensures exact { IfOk result (λ exits. exits.items ≡ exits_from calls.now 0 callers.now) }
    ensures few { IfOk result (λ exits. length exits.items ≤ 8) }
{
    let mut exits = Vec::new(alloc);
    'places: for place in 0..callers.len() {
        add_exit(alloc, calls, place as u8, &mut exits)?;
    }
    Ok(exits)
}

/// Adds an `exit` for each caller that has a call and has not ended, in the callers' order.
pub(crate) fn with_exits(
    alloc: Global,
    callers: &[Caller],
    calls: Vec<JobCall>,
) -> Result<Vec<JobCall>, AllocError>
    requires few { length callers.now ≤ 8 }
    requires short { length calls.items ≤ 100000 }
    ensures exact { IfOk result (λ all. all.items ≡ with_exits callers.now calls.items) }
    ensures short { IfOk result (λ all. length all.items ≤ 100008) }
{
    let exits = exits_of(alloc, callers, &calls)?;
    let mut all = calls;
    'exits: for exit in exits {
        all.push(exit)?;
    }
    Ok(all)
}
