use mb_call_pairs::{Answered, Pair};
use mb_gathering::SMALL;
use mb_jobs::{Job, JobCall, Text, job_of};
use mb_kinds::{Call, Cred, Creds, Entry, Reply};
use mb_print::transcript;
use std::alloc::{AllocError, Global};
use std::process::Abort;
use std::test::Fail;

/// A call's text, with the letter of its caller, and the text of its reply.
pub type CallRow = (&'static str, &'static str);

/// Adds the callers and the calls of a table to a job.
fn add_job(text: &mut Vec<u8>, callers: &str, table: &[CallRow]) -> Result<(), AllocError> {
    text.extend_from_slice(b"callers = [")?;
    text.extend_from_slice(callers.as_bytes())?;
    text.extend_from_slice(b"]\ncalls = [\n")?;
    for (call, _) in table {
        text.push(b'"')?;
        text.extend_from_slice(call.as_bytes())?;
        text.extend_from_slice(b"\",\n")?;
    }
    text.extend_from_slice(b"]\n")
}

/// The job of the calls of a table.
fn job_of_table(heap: Global, callers: &str, table: &[CallRow]) -> Result<Job, Fail> {
    let mut text = Vec::new(heap);
    add_job(&mut text, callers, table)?;
    Ok(job_of(heap, &text)?)
}

/// Adds a number to a text.
fn add_number(heap: Global, text: &mut Vec<u8>, number: u64) -> Result<(), AllocError> {
    let digits = format!(in heap; "{number}")?;
    text.extend_from_slice(digits.as_bytes())
}

/// Adds the lines that a table writes.
fn add_lines(heap: Global, text: &mut Vec<u8>, table: &[CallRow]) -> Result<(), AllocError> {
    for (index, (call, reply)) in table.iter().enumerate() {
        add_number(heap, text, index as u64 + 1)?;
        text.push(b' ')?;
        text.extend_from_slice(call.as_bytes())?;
        text.extend_from_slice(b" = ")?;
        text.extend_from_slice(reply.as_bytes())?;
        text.push(b'\n')?;
    }
    Ok(())
}

/// Adds the credentials of a job's callers.
fn add_creds(creds: &mut Vec<Cred>, job: &Job) -> Result<(), AllocError> {
    for caller in job.callers.as_slice() {
        creds.push(caller.cred)?;
    }
    Ok(())
}

/// The credentials of a job's callers.
fn creds_of(heap: Global, job: &Job) -> Result<Creds, Fail> {
    let mut creds = Vec::new(heap);
    add_creds(&mut creds, job)?;
    if creds.len() > 8 {
        return Err("too many callers".into());
    }
    Ok(Creds::from_vec(creds))
}

/// The pair on the small volume for a job's callers.
fn pair_of(heap: Global, job: &Job) -> Result<Pair, Fail> {
    let creds = creds_of(heap, job)?;
    Pair::new(heap, &creds, SMALL)
}

/// Over all blocks at once a call is answered as over those that it asks for, or meets want of memory.
fn is_alike(
    heap: Global,
    moment: u32,
    at_once: &Option<Reply>,
    answered: &Answered,
) -> Result<(), Fail> {
    match at_once {
        Some(reply) if *reply != answered.reply => {
            Err(format!(in heap; "call {moment}: {reply:?} at once")?.into())
        }
        _ => Ok(()),
    }
}

/// Makes a call, which is answered as the model answers it, and over all blocks at once as over those that it asks for.
fn call_alike(
    heap: Global,
    pair: &mut Pair,
    caller: u8,
    call: &Call,
    moment: u32,
) -> Result<Answered, Fail> {
    let at_once = pair.reply_at_once(caller, call, moment)?;
    let answered = pair.call(caller, call, moment)?;
    is_alike(heap, moment, &at_once, &answered)?;
    Ok(answered)
}

/// Makes a job's call; then the image is a volume of the model's tree.
fn call_shown(heap: Global, pair: &mut Pair, one: &JobCall, moment: u32) -> Result<Answered, Fail> {
    let answered = call_alike(heap, pair, one.caller, &one.call, moment)?;
    pair.shows_the_tree()?;
    Ok(answered)
}

/// The entry of a job's call.
fn entry_of(heap: Global, pair: &mut Pair, one: &JobCall, moment: u32) -> Result<Entry, Fail> {
    let call = one.call.copied(heap)?;
    let answered = call_shown(heap, pair, one, moment)?;
    Ok(Entry {
        caller: one.caller,
        ordinal: moment,
        call,
        pick: answered.pick,
        moment,
        reply: answered.reply,
    })
}

/// Makes a job's calls in list order, the first one at moment 1, and adds their entries.
fn add_entries(
    heap: Global,
    pair: &mut Pair,
    history: &mut Vec<Entry>,
    job: &Job,
) -> Result<(), Fail> {
    let mut moment = 0u32;
    for one in job.calls.as_slice() {
        moment = moment.saturating_add(1);
        history.push(entry_of(heap, pair, one, moment)?)?;
    }
    Ok(())
}

/// Makes a job's calls in list order, the first one at moment 1.
fn entries_of(heap: Global, pair: &mut Pair, job: &Job) -> Result<Vec<Entry>, Fail> {
    let mut history = Vec::new(heap);
    add_entries(heap, pair, &mut history, job)?;
    Ok(history)
}

/// Makes a job's calls in list order, the first one at moment 1. Each is answered as the model answers it, and over all
/// blocks at once as over those that it asks for; then the image is a volume of the model's tree.
fn history_of(heap: Global, job: &Job) -> Result<Vec<Entry>, Fail> {
    let mut pair = pair_of(heap, job)?;
    entries_of(heap, &mut pair, job)
}

/// The transcript of a job.
fn transcript_of(heap: Global, job: &Job) -> Result<Text, Fail> {
    let history = history_of(heap, job)?;
    Ok(transcript(heap, job, &history)?)
}

/// Whether a job's transcript is a table's.
fn is_written<R: Abort>(rt: &R, heap: Global, text: &[u8], table: &[CallRow]) -> Result<(), Fail> {
    let mut wanted = Vec::new(heap);
    add_lines(heap, &mut wanted, table)?;
    assert_eq!(rt; std::str::from_utf8(text), std::str::from_utf8(&wanted));
    Ok(())
}

/// The calls of a table, made one after another by these callers on the fresh volume, are answered so.
pub fn answers<R: Abort>(
    rt: &R,
    heap: Global,
    callers: &str,
    table: &[CallRow],
) -> Result<(), Fail> {
    let job = job_of_table(heap, callers, table)?;
    let text = transcript_of(heap, &job)?;
    is_written(rt, heap, text.as_slice(), table)
}

/// The same by one caller of uid 0 and gid 0.
pub fn answers_root<R: Abort>(rt: &R, heap: Global, table: &[CallRow]) -> Result<(), Fail> {
    answers(rt, heap, "\"a 0 0\"", table)
}
