use mb_call_texts::text_of_call;
use mb_jobs::{JobCall, JobFault, job_of};
use mb_kinds::Call;
use std::alloc::{AllocError, Global};
use std::process::Abort;

const WRITTEN: &[u8] =
    b"calls = [\"a open /p rw\", \"a creat /p 644\", \"a text 3 hi\", \"a fill 3 0 7\", \"a lseek 3 -5 1\", \"a chmod \\\"\\\" 4755\", \"a sync\"]";

/// Whether a call is written so.
fn is_written(alloc: Global, call: &Call, text: &[u8]) -> Result<bool, AllocError> {
    let written = text_of_call(alloc, call)?;
    Ok(written.as_slice() == text)
}

fn are_written<R: Abort + AllocGlobal>(
    rt: &R,
    calls: &[JobCall],
    texts: &[&[u8]],
) -> Result<(), JobFault> {
    for (call, text) in calls.iter().zip(texts.iter()) {
        let is_same = is_written(rt.alloc(), &call.call, text)?;
        assert!(rt; is_same);
    }
    Ok(())
}

fn all_are_written<R: Abort + AllocGlobal>(rt: &R, calls: &[JobCall]) -> Result<(), JobFault> {
    let texts = [
        b"open /p rw".as_slice(),
        b"creat /p 644",
        b"hex 3 6869",
        b"fill 3 0 0",
        b"lseek 3 -5 1",
        b"chmod \"\" 4755",
        b"sync",
        b"exit",
    ];
    assert!(rt; calls.len() == texts.len());
    are_written(rt, calls, &texts)
}

#[test]
fn writes_the_texts_of_calls(rt: HostRuntime) -> Result<(), JobFault> {
    let job = job_of(rt.alloc(), WRITTEN)?;
    all_are_written(&rt, job.calls.as_slice())
}
