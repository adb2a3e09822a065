ghost use Rattle.std.specs.Prelude.{◌≡◌, ◌≤◌, ◌+◌, ◌++◌, ◌∷◌, [], length, IfOk, OnOk, if◌then◌else◌};
ghost use Rattle.mb_jobs.specs.Lists.{added_exit, has_call, has_ended, is_exit, lacks_exit, with_exits};
ghost use Rattle.mb_gen.specs.Generator.{the_callers};

use mb_jobs::{JobCall, Text};
use mb_kinds::Call;
use std::alloc::{AllocError, Global};

fn is_exit(call: &Call) -> bool
    ensures { result ≡ is_exit call.now }
{
    matches!(call, Call::Exit)
}

fn has_call(calls: &[JobCall], caller: u8) -> bool
    ensures { result ≡ has_call calls.now caller }
{
    calls.iter().any(|call| call.caller == caller)
}

fn has_ended(calls: &[JobCall], caller: u8) -> bool
    ensures { result ≡ has_ended calls.now caller }
{
    calls
        .iter()
        .any(|call| call.caller == caller && is_exit(&call.call))
}

/// Whether a caller has a call and has not ended.
fn lacks_exit(calls: &[JobCall], caller: u8) -> bool
    ensures { result ≡ lacks_exit calls.now caller }
{
    has_call(calls, caller) && !has_ended(calls, caller)
}

/// The `exit` that is added for a caller.
fn added_exit(alloc: Global, caller: u8) -> Result<JobCall, AllocError>
    ensures { IfOk result (λ call. call ≡ added_exit caller) }
{
    Ok(JobCall {
        caller,
        text: Text::from_vec(b"exit".to_vec(alloc)?),
        call: Call::Exit,
    })
}

/// Adds the `exit` of a caller, where that one lacks it.
fn add_exit(
    alloc: Global,
    all: &mut Vec<JobCall>,
    caller: u8,
    lacks: bool,
) -> Result<(), AllocError>
    requires few { length all.old.items ≤ 100000 }
    ensures exact { OnOk result (all.new.items ≡ all.old.items ++ (if lacks then added_exit caller ∷ [] else [])) }
    ensures few { OnOk result (length all.new.items ≤ length all.old.items + 1) }
{
    if lacks {
        all.push(added_exit(alloc, caller)?)?;
    }
    Ok(())
}

/// Adds an `exit` for each of the two callers that has a call, as a job's text gets them.
pub(crate) fn with_exits(alloc: Global, calls: Vec<JobCall>) -> Result<Vec<JobCall>, AllocError>
    requires short { length calls.items ≤ 32768 }
    ensures exact { IfOk result (λ all. all.items ≡ with_exits the_callers calls.items) }
    ensures least { IfOk result (λ all. length calls.items ≤ length all.items) }
    ensures short { IfOk result (λ all. length all.items ≤ 32770) }
{
    let first = lacks_exit(&calls, 0);
    let second = lacks_exit(&calls, 1);
    let mut all = calls;
    add_exit(alloc, &mut all, 0, first)?;
    add_exit(alloc, &mut all, 1, second)?;
    Ok(all)
}
