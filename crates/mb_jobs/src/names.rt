ghost use Rattle.std.specs.Prelude.{◌≡◌, IfOk};
ghost use Rattle.mb_jobs.specs.Calls.{read_as};
ghost use Rattle.mb_jobs.specs.declared.verbs.Verb.{Verb};

use crate::numbers::octal_of;
use crate::paths::{how_of, path_of};
use crate::words::cut;
use mb_kinds::Call;
use std::alloc::{AllocError, Global};

/// `open PATH HOW`.
pub(crate) fn open(alloc: Global, rest: &[u8]) -> Result<Option<Call>, AllocError>
    ensures { IfOk result (λ found. found ≡ read_as Verb.Open rest.now) }
{
    let (path, how) = cut(rest);
    match (path_of(alloc, path)?, how_of(how)) {
        (Some(path), Some(how)) => Ok(Some(Call::Open { path, how })),
        _ => Ok(None),
    }
}

/// `creat PATH MODE`.
pub(crate) fn creat(alloc: Global, rest: &[u8]) -> Result<Option<Call>, AllocError>
    ensures { IfOk result (λ found. found ≡ read_as Verb.Creat rest.now) }
{
    let (path, mode) = cut(rest);
    match (path_of(alloc, path)?, octal_of(3, mode)) {
        (Some(path), Some(mode)) => Ok(Some(Call::Creat { path, mode })),
        _ => Ok(None),
    }
}

/// `mkdir PATH MODE`.
pub(crate) fn mkdir(alloc: Global, rest: &[u8]) -> Result<Option<Call>, AllocError>
    ensures { IfOk result (λ found. found ≡ read_as Verb.Mkdir rest.now) }
{
    let (path, mode) = cut(rest);
    match (path_of(alloc, path)?, octal_of(3, mode)) {
        (Some(path), Some(mode)) => Ok(Some(Call::Mkdir { path, mode })),
        _ => Ok(None),
    }
}

/// `link PATH PATH`.
pub(crate) fn link(alloc: Global, rest: &[u8]) -> Result<Option<Call>, AllocError>
    ensures { IfOk result (λ found. found ≡ read_as Verb.Link rest.now) }
{
    let (from, to) = cut(rest);
    match (path_of(alloc, from)?, path_of(alloc, to)?) {
        (Some(from), Some(to)) => Ok(Some(Call::Link { from, to })),
        _ => Ok(None),
    }
}

/// `unlink PATH`.
pub(crate) fn unlink(alloc: Global, rest: &[u8]) -> Result<Option<Call>, AllocError>
    ensures { IfOk result (λ found. found ≡ read_as Verb.Unlink rest.now) }
{
    match path_of(alloc, rest)? {
        Some(path) => Ok(Some(Call::Unlink { path })),
        None => Ok(None),
    }
}

/// `rmdir PATH`.
pub(crate) fn rmdir(alloc: Global, rest: &[u8]) -> Result<Option<Call>, AllocError>
    ensures { IfOk result (λ found. found ≡ read_as Verb.Rmdir rest.now) }
{
    match path_of(alloc, rest)? {
        Some(path) => Ok(Some(Call::Rmdir { path })),
        None => Ok(None),
    }
}
