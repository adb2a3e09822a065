ghost use Rattle.std.specs.Prelude.{◌≡◌, ◌<◌, ◌≤◌, length, IfOk, IfSome, option_map};
ghost use Rattle.mb_jobs.specs.Calls.{line_call, read_as};
ghost use Rattle.mb_jobs.specs.Lists.{call_in, place_in};

use crate::jobs::{Caller, JobCall};
use crate::texts::Text;
use crate::verbs::{Verb, verb_of};
use crate::words::cut;
use crate::{descriptors, names, nodes};
use mb_kinds::Call;
use std::alloc::{AllocError, Global};

/// The call that a verb writes with the rest of its line.
fn read_as(alloc: Global, verb: Verb, rest: &[u8]) -> Result<Option<Call>, AllocError>
    ensures { IfOk result (λ found. found ≡ read_as verb rest.now) }
{
    match verb {
        Verb::Open => names::open(alloc, rest),
        Verb::Creat => names::creat(alloc, rest),
        Verb::Close => Ok(descriptors::close(rest)),
        Verb::Read => Ok(descriptors::read(rest)),
        Verb::Text => descriptors::text(alloc, rest),
        Verb::Hex => descriptors::hex(alloc, rest),
        Verb::Fill => descriptors::fill(alloc, rest),
        Verb::Lseek => Ok(descriptors::lseek(rest)),
        Verb::Dup => Ok(descriptors::dup(rest)),
        Verb::Link => names::link(alloc, rest),
        Verb::Unlink => names::unlink(alloc, rest),
        Verb::Mkdir => names::mkdir(alloc, rest),
        Verb::Rmdir => names::rmdir(alloc, rest),
        Verb::Chdir => nodes::chdir(alloc, rest),
        Verb::Stat => nodes::stat(alloc, rest),
        Verb::Fstat => Ok(descriptors::fstat(rest)),
        Verb::Chmod => nodes::chmod(alloc, rest),
        Verb::Chown => nodes::chown(alloc, rest),
        Verb::Utime => nodes::utime(alloc, rest),
        Verb::Access => nodes::access(alloc, rest),
        Verb::Umask => Ok(nodes::umask(rest)),
    }
}

/// The call that a line writes.
fn line_call(alloc: Global, line: &[u8]) -> Result<Option<Call>, AllocError>
    ensures { IfOk result (λ found. found ≡ line_call line.now) }
{
    if line == b"sync".as_slice() {
        return Ok(Some(Call::Sync));
    }
    if line == b"exit".as_slice() {
        return Ok(Some(Call::Exit));
    }
    let (word, rest) = cut(line);
    match verb_of(word) {
        Some(verb) => read_as(alloc, verb, rest),
        None => Ok(None),
    }
}

/// The place of the first caller with a letter.
fn first_of(callers: &[Caller], letter: u8) -> Option<usize>
    ensures exact { result ≡ place_in callers.now letter }
    ensures within { IfSome result (λ place. place < length callers.now) }
{
    callers.iter().position(|caller| caller.letter == letter)
}

/// The same, of at most 8 callers.
fn place_of(callers: &[Caller], letter: u8) -> Option<u8>
    requires { length callers.now ≤ 8 }
    ensures exact { result ≡ place_in callers.now letter }
    ensures within { IfSome result (λ place. place < length callers.now) }
{
    match first_of(callers, letter) {
        Some(place) => Some(place as u8),
        None => None,
    }
}

/// The call that one text of the list `calls` writes, or `None` where it writes none.
pub(crate) fn call_of(
    alloc: Global,
    callers: &[Caller],
    text: Text,
) -> Result<Option<JobCall>, AllocError>
    requires { length callers.now ≤ 8 }
    ensures { IfOk result (λ found. found ≡ call_in callers.now text) }
{
    let [letter, b' ', line @ ..] = text.as_slice() else {
        return Ok(None);
    };
    let Some(caller) = place_of(callers, *letter) else {
        return Ok(None);
    };
    match line_call(alloc, line)? {
        Some(call) => Ok(Some(JobCall {
            caller,
            text: text.behind_two(),
            call,
        })),
        None => Ok(None),
    }
}
