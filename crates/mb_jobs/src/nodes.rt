ghost use Rattle.std.specs.Prelude.{◌≡◌, IfOk};
ghost use Rattle.mb_jobs.specs.Calls.{read_as};
ghost use Rattle.mb_jobs.specs.declared.verbs.Verb.{Verb};

use crate::numbers::{bits_of, octal_of, short_of, time_of};
use crate::paths::path_of;
use crate::words::cut;
use mb_kinds::Call;
use std::alloc::{AllocError, Global};

/// `chdir PATH`.
pub(crate) fn chdir(alloc: Global, rest: &[u8]) -> Result<Option<Call>, AllocError>
    ensures { IfOk result (λ found. found ≡ read_as Verb.Chdir rest.now) }
{
    match path_of(alloc, rest)? {
        Some(path) => Ok(Some(Call::Chdir { path })),
        None => Ok(None),
    }
}

/// `stat PATH`.
pub(crate) fn stat(alloc: Global, rest: &[u8]) -> Result<Option<Call>, AllocError>
    ensures { IfOk result (λ found. found ≡ read_as Verb.Stat rest.now) }
{
    match path_of(alloc, rest)? {
        Some(path) => Ok(Some(Call::Stat { path })),
        None => Ok(None),
    }
}

/// `chmod PATH MODE`.
pub(crate) fn chmod(alloc: Global, rest: &[u8]) -> Result<Option<Call>, AllocError>
    ensures { IfOk result (λ found. found ≡ read_as Verb.Chmod rest.now) }
{
    let (path, mode) = cut(rest);
    match (path_of(alloc, path)?, octal_of(4, mode)) {
        (Some(path), Some(mode)) => Ok(Some(Call::Chmod { path, mode })),
        _ => Ok(None),
    }
}

/// `chown PATH UID GID`.
pub(crate) fn chown(alloc: Global, rest: &[u8]) -> Result<Option<Call>, AllocError>
    ensures { IfOk result (λ found. found ≡ read_as Verb.Chown rest.now) }
{
    let (path, more) = cut(rest);
    let (uid, gid) = cut(more);
    match (path_of(alloc, path)?, short_of(uid), short_of(gid)) {
        (Some(path), Some(uid), Some(gid)) => Ok(Some(Call::Chown { path, uid, gid })),
        _ => Ok(None),
    }
}

/// `utime PATH ATIME MTIME`.
pub(crate) fn utime(alloc: Global, rest: &[u8]) -> Result<Option<Call>, AllocError>
    ensures { IfOk result (λ found. found ≡ read_as Verb.Utime rest.now) }
{
    let (path, more) = cut(rest);
    let (atime, mtime) = cut(more);
    match (path_of(alloc, path)?, time_of(atime), time_of(mtime)) {
        (Some(path), Some(atime), Some(mtime)) => Ok(Some(Call::Utime { path, atime, mtime })),
        _ => Ok(None),
    }
}

/// `access PATH BITS`.
pub(crate) fn access(alloc: Global, rest: &[u8]) -> Result<Option<Call>, AllocError>
    ensures { IfOk result (λ found. found ≡ read_as Verb.Access rest.now) }
{
    let (path, bits) = cut(rest);
    match (path_of(alloc, path)?, bits_of(bits)) {
        (Some(path), Some(bits)) => Ok(Some(Call::Access { path, bits })),
        _ => Ok(None),
    }
}

/// `umask MASK`.
pub(crate) fn umask(rest: &[u8]) -> Option<Call>
    ensures { result ≡ read_as Verb.Umask rest.now }
{
    match octal_of(3, rest) {
        Some(mask) => Some(Call::Umask { mask }),
        None => None,
    }
}
