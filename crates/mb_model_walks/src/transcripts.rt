use crate::histories::lowest_free;
use crate::lines::{are_alike, is_unserved, lines_of, words_of};
use mb_jobs::Job;
use mb_kinds::{Entry, NoMemory, Reply};
use mb_print::transcript;
use mb_tree::Machine;
use std::alloc::{AllocError, Global};

/// How many calls of each caller of a job were gone through, by the places behind them.
#[derive(Drop)]
struct Places {
    next: Vec<usize>,
}

impl Places {
    fn new(heap: Global, job: &Job) -> Result<Places, AllocError> {
        Ok(Places {
            next: vec![in heap; 0; job.callers.len()]?,
        })
    }

    /// The place of a caller's next call, which is then gone through.
    fn take(&mut self, job: &Job, caller: usize) -> Option<usize> {
        let next = self.next.get_mut(caller)?;
        for at in *next..job.calls.len() {
            let call = job.calls.get(at)?;
            if usize::from(call.caller) == caller {
                *next = at + 1;
                return Some(at);
            }
        }
        None
    }
}

/// The number of the caller whose letter is the second word of a line.
fn caller_of(job: &Job, words: &[&[u8]]) -> Option<usize> {
    let word = words.get(1)?;
    for (at, caller) in job.callers.as_slice().iter().enumerate() {
        if *word == [caller.letter].as_slice() {
            return Some(at);
        }
    }
    None
}

/// What the model answers to the call of a line; what comes for one that was not served.
fn answer(
    heap: Global,
    machine: &mut Machine,
    job: &Job,
    at: usize,
    moment: u32,
    served: bool,
) -> Result<Option<Entry>, NoMemory> {
    let Some(one) = job.calls.get(at) else {
        return Ok(None);
    };
    if usize::from(one.caller) >= machine.seats.len() {
        return Ok(None);
    }
    let pick = lowest_free(&machine.tree);
    let reply = if served {
        machine.step(heap, one.caller, &one.call, moment, pick)?
    } else {
        Reply::Device
    };
    Ok(Some(Entry {
        caller: one.caller,
        ordinal: 1,
        call: one.call.copied(heap)?,
        pick,
        moment,
        reply,
    }))
}

/// What the model answers to the calls of some lines, up to a line that no caller's next call can have.
fn answers(
    heap: Global,
    machine: &mut Machine,
    job: &Job,
    lines: &[&[u8]],
) -> Result<Vec<Entry>, NoMemory> {
    let mut places = Places::new(heap, job)?;
    let mut history = Vec::new(heap);
    let mut moment = job.start;
    for line in lines {
        moment = moment.saturating_add(1);
        let words = words_of(heap, line)?;
        let Some(caller) = caller_of(job, &words) else {
            return Ok(history);
        };
        let Some(at) = places.take(job, caller) else {
            return Ok(history);
        };
        match answer(heap, machine, job, at, moment, !is_unserved(&words))? {
            Some(entry) => history.push(entry)?,
            None => return Ok(history),
        }
    }
    Ok(history)
}

/// The first of some lines, from 0, that is not alike to the wanted one; the number of lines where there is one too few.
fn first_apart(
    heap: Global,
    wanted: &[&[u8]],
    printed: &[&[u8]],
) -> Result<Option<usize>, NoMemory> {
    for (at, line) in printed.iter().enumerate() {
        let Some(other) = wanted.get(at) else {
            return Ok(Some(at));
        };
        if !are_alike(&words_of(heap, other)?, &words_of(heap, line)?) {
            return Ok(Some(at));
        }
    }
    Ok(None)
}

/// Steps a machine through the lines of a job's printed text, without its last line: the first line, from 0, that the model
/// does not answer so, or at which no call of its caller is left. Where all lines are the model's and a call is left, it is
/// the number of the lines. A text tells neither the moments nor the numbers of inodes: those words of a reply are not
/// compared, and the model picks the lowest free number, so a job that reads the bytes of a directory may differ. A call
/// that a fault or the disk ended is passed over.
pub fn first_line_apart(
    heap: Global,
    machine: &mut Machine,
    job: &Job,
    text: &[u8],
) -> Result<Option<usize>, NoMemory> {
    let printed = lines_of(heap, text)?;
    let history = answers(heap, machine, job, &printed)?;
    let wanted = transcript(heap, job, &history)?;
    let apart = first_apart(heap, &lines_of(heap, wanted.as_slice())?, &printed)?;
    if apart.is_none() && printed.len() < job.calls.len() {
        return Ok(Some(printed.len()));
    }
    Ok(apart)
}
