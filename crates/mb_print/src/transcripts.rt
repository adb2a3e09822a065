ghost use Rattle.std.specs.Prelude.{◌≡◌, ◌++◌, ◌∷◌, [], IfOk, OnOk, codes, decimal};
ghost use Rattle.mb_print.specs.Replies.{reply_text};
ghost use Rattle.std.specs.List.{count_by};
ghost use Rattle.mb_print.specs.Transcript.{counts_text, end_text, failed_text, is_refused, is_restart, letter_text, line_text, soak_text, transcript_text};

use crate::numerals::{field, push_field, push_number};
use crate::places::{first_places, next_text};
use crate::replies::push_reply;
use mb_jobs::{Caller, Job, Text};
use mb_kinds::{Entry, Reply};
use std::alloc::{AllocError, Global};

/// Appends a line's number, a blank, and the caller's letter.
fn push_head(
    out: &mut Vec<u8>,
    number: u64,
    callers: &[Caller],
    caller: u8,
) -> Result<(), AllocError>
    ensures { OnOk result (out.new.items ≡ out.old.items ++ decimal number ++ codes " " ++ letter_text callers.now caller) }
{
    push_number(out, number)?;
    out.extend_from_slice(b" ")?;
    if let Some(one) = callers.get(usize::from(caller)) {
        out.push(one.letter)?;
    }
    Ok(())
}

/// Appends one line of a transcript.
fn push_line(
    out: &mut Vec<u8>,
    number: u64,
    callers: &[Caller],
    caller: u8,
    text: &[u8],
    reply: &Reply,
) -> Result<(), AllocError>
    ensures { OnOk result (out.new.items
        ≡ out.old.items ++ line_text number (letter_text callers.now caller) text.now reply.now) }
{
    push_head(out, number, callers, caller)?;
    out.extend_from_slice(b" ")?;
    out.extend_from_slice(text)?;
    out.extend_from_slice(b" = ")?;
    push_reply(out, reply)?;
    out.push(b'\n')?;
    Ok(())
}

/// The lines of a history.
fn lines_of(alloc: Global, job: &Job, history: &[Entry]) -> Result<Vec<u8>, AllocError>
    ensures { IfOk result (λ lines. lines.items ≡ transcript_text job.now history.now) }
{
    let callers = job.callers.as_slice();
    let calls = job.calls.as_slice();
    let mut places = first_places();
    let mut out = Vec::new(alloc);
    'entries: for (index, entry) in history.iter().enumerate() {
        let text = next_text(calls, &mut places, entry.caller);
        push_line(
            &mut out,
            index as u64 + 1,
            callers,
            entry.caller,
            text,
            &entry.reply,
        )?;
    }
    Ok(out)
}

/// The printed text of a history: one line for each entry, `N CALLER TEXT = REPLY`, in order. N counts
/// from 1, CALLER is the letter of the entry's caller, and the k-th entry of a caller carries the text
/// of its k-th call. An entry past its caller's last call has an empty TEXT, and one of a caller that
/// the job does not have an empty CALLER.
///
/// It takes time in proportion to the length of the history and of the job, for each of its callers.
/// The only error is want of memory.
pub fn transcript(alloc: Global, job: &Job, history: &[Entry]) -> Result<Text, AllocError>
    ensures { IfOk result (λ text. text ≡ transcript_text job.now history.now) }
{
    Ok(Text::from_vec(lines_of(alloc, job, history)?))
}

/// The same, and one more line behind it. The only error is want of memory.
pub fn transcript_with(
    alloc: Global,
    job: &Job,
    history: &[Entry],
    line: &[u8],
) -> Result<Text, AllocError>
    ensures { IfOk result (λ text. text ≡ transcript_text job.now history.now ++ line.now) }
{
    let mut text = lines_of(alloc, job, history)?;
    text.extend_from_slice(line)?;
    Ok(Text::from_vec(text))
}

/// The numbers that stand at the end of a run: the entries, the fault records, and the entries at the
/// last seal.
fn counts_line(
    alloc: Global,
    label: &[u8],
    entries: u64,
    faults: u64,
    seal: u64,
) -> Result<Text, AllocError>
    ensures { IfOk result (λ text. text ≡ counts_text label.now entries faults seal) }
{
    let mut line = field(alloc, label, entries)?;
    push_field(&mut line, b" faults ", faults)?;
    push_field(&mut line, b" seal ", seal)?;
    line.push(b'\n')?;
    Ok(Text::from_vec(line))
}

/// The line at the end of a run, `end N faults F seal K`: N entries, F fault records, and K entries at
/// the last seal. The only error is want of memory.
pub fn last_line(alloc: Global, entries: u64, faults: u64, seal: u64) -> Result<Text, AllocError>
    ensures { IfOk result (λ text. text ≡ end_text entries faults seal) }
{
    counts_line(alloc, b"end ", entries, faults, seal)
}

/// The line at the end of a run after which the volume has failed, `failed N faults F seal K`. The only
/// error is want of memory.
pub fn failed_line(alloc: Global, entries: u64, faults: u64, seal: u64) -> Result<Text, AllocError>
    ensures { IfOk result (λ text. text ≡ failed_text entries faults seal) }
{
    counts_line(alloc, b"failed ", entries, faults, seal)
}

fn is_refused(entry: &Entry) -> bool
    ensures { result ≡ is_refused entry.now }
{
    matches!(&entry.reply, Reply::Refused(_))
}

fn is_restart(entry: &Entry) -> bool
    ensures { result ≡ is_restart entry.now }
{
    matches!(
        &entry.reply,
        Reply::Restart {
            first: _,
            second: _
        }
    )
}

/// How many entries of a history are refused calls.
fn refused_in(history: &[Entry]) -> u64
    ensures { result ≡ count_by is_refused history.now }
{
    let mut count = 0u64;
    'entries: for entry in history {
        if is_refused(entry) {
            count += 1;
        }
    }
    count
}

/// How many entries of a history are restarts.
fn restarts_in(history: &[Entry]) -> u64
    ensures { result ≡ count_by is_restart history.now }
{
    let mut count = 0u64;
    'entries: for entry in history {
        if is_restart(entry) {
            count += 1;
        }
    }
    count
}

/// The line that stands for a whole history, `soak entries N faults F refused R restarts T seal K`: N
/// entries, F fault records, R refused calls, T calls that two faults struck, and K entries at the last
/// seal. It takes time in proportion to the history's length. The only error is want of memory.
pub fn soak_line(
    alloc: Global,
    history: &[Entry],
    faults: u64,
    seal: u64,
) -> Result<Text, AllocError>
    ensures { IfOk result (λ text. text ≡ soak_text history.now faults seal) }
{
    let mut line = field(alloc, b"soak entries ", history.len() as u64)?;
    push_field(&mut line, b" faults ", faults)?;
    push_field(&mut line, b" refused ", refused_in(history))?;
    push_field(&mut line, b" restarts ", restarts_in(history))?;
    push_field(&mut line, b" seal ", seal)?;
    line.push(b'\n')?;
    Ok(Text::from_vec(line))
}
