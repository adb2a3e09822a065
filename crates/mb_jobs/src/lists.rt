ghost use Rattle.std.specs.Prelude.{◌≡◌, ◌≤◌, ◌<◌, ◌+◌, ◌++◌, ◌∷◌, [], length, map, sum_by, true, IfOk, IfSome, OnOk};
ghost use Rattle.std.specs.Result.{result_map_both};
ghost use Rattle.mb_jobs.specs.Lists.{IsListed, calls_in, count_of, is_exit, may_follow, moved_by, next_call};

use crate::calls::call_of;
use crate::jobs::{Caller, JobCall};
use crate::texts::Text;
use mb_kinds::Call;
use std::alloc::{AllocError, Global};

/// The greatest number of calls that a list may have.
const MOST_CALLS: usize = 100_000;

/// The greatest sum of the bytes that a list's calls move.
const MOST_BYTES: u32 = 16_777_216;

/// The calls that are read so far, the bytes that they move, and for each place of a caller whether
/// it has called `exit`.
#[derive(Drop)]
struct Listed {
    calls: Vec<JobCall>,
    moved: u32,
    ended: [bool; 256],
}

pub(crate) fn is_exit(call: &Call) -> bool
    ensures { result ≡ is_exit call.now }
{
    matches!(call, Call::Exit)
}

/// The bytes that a call moves.
fn moved_by(call: &Call) -> u32
    ensures exact { result ≡ moved_by call.now }
    ensures small { result ≤ 65535 }
{
    match call {
        Call::Read { fd: _, count } => u32::from(*count),
        Call::Write { fd: _, bytes } => bytes.as_slice().len() as u32,
        _ => 0,
    }
}

/// Whether a call may follow those that are read so far.
fn may_follow(listed: &Listed, call: &JobCall) -> bool
    requires { IsListed listed.now.calls.items listed.now.moved listed.now.ended }
    ensures { result ≡ may_follow listed.now.calls.items call.now }
{
    listed.calls.as_slice().len() < MOST_CALLS
        && listed.moved + moved_by(&call.call) <= MOST_BYTES
        && !listed.ended[usize::from(call.caller)]
}

/// The call that a text writes, where it may follow those that are read so far.
fn next_call(
    alloc: Global,
    callers: &[Caller],
    listed: &Listed,
    text: Text,
) -> Result<Option<JobCall>, AllocError>
    requires few { length callers.now ≤ 8 }
    requires listed { IsListed listed.now.calls.items listed.now.moved listed.now.ended }
    ensures exact { IfOk result (λ found. found ≡ next_call callers.now listed.now.calls.items text) }
    ensures may { IfOk result (λ found. IfSome found (λ call. may_follow listed.now.calls.items call ≡ true)) }
{
    match call_of(alloc, callers, text)? {
        Some(call) if may_follow(listed, &call) => Ok(Some(call)),
        _ => Ok(None),
    }
}

/// Adds a call that may follow.
fn add(listed: &mut Listed, call: JobCall) -> Result<(), AllocError>
    requires listed { IsListed listed.old.calls.items listed.old.moved listed.old.ended }
    requires may { may_follow listed.old.calls.items call ≡ true }
    ensures calls { OnOk result (listed.new.calls.items ≡ listed.old.calls.items ++ call ∷ []) }
    ensures listed { OnOk result (IsListed listed.new.calls.items listed.new.moved listed.new.ended) }
{
    let slot = usize::from(call.caller);
    listed.moved += moved_by(&call.call);
    listed.ended[slot] = listed.ended[slot] || is_exit(&call.call);
    listed.calls.push(call)?;
    Ok(())
}

/// The calls of a list of texts, or the index of the first text that writes none there, from 1.
pub(crate) fn calls_of(
    alloc: Global,
    callers: &[Caller],
    texts: Vec<Text>,
) -> Result<Result<Vec<JobCall>, u32>, AllocError>
    requires few { length callers.now ≤ 8 }
    ensures exact { IfOk result (λ found.
        result_map_both (λ calls. calls.items) (λ index. index) found ≡ calls_in callers.now texts.items) }
    ensures short { IfOk result (λ found. IfOk found (λ calls. length calls.items ≤ 100000)) }
{
    let mut listed = Listed {
        calls: Vec::with_capacity(alloc, texts.len().min(MOST_CALLS) + 8)?,
        moved: 0,
        ended: [false; 256],
    };
    'texts: for text in texts {
        match next_call(alloc, callers, &listed, text)? {
            Some(call) => add(&mut listed, call)?,
            None => return Ok(Err(listed.calls.as_slice().len() as u32 + 1)),
        }
    }
    Ok(Ok(listed.calls))
}
