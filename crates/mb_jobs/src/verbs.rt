ghost use Rattle.std.specs.Prelude.{◌≡◌};
ghost use Rattle.mb_jobs.specs.Verbs.{descriptor_verb, inode_verb, name_verb, verb_in};

/// The verbs of the calls that have arguments; `Text`, `Hex` and `Fill` are three ways to write.
#[derive(Clone, Copy, Debug, PartialEq, Eq, Drop)]
pub(crate) enum Verb {
    Open,
    Creat,
    Close,
    Read,
    Text,
    Hex,
    Fill,
    Lseek,
    Dup,
    Link,
    Unlink,
    Mkdir,
    Rmdir,
    Chdir,
    Stat,
    Fstat,
    Chmod,
    Chown,
    Utime,
    Access,
    Umask,
}

/// The verb of a call on a descriptor.
fn descriptor_verb(word: &[u8]) -> Option<Verb>
    ensures { result ≡ descriptor_verb word.now }
{
    if word == b"close".as_slice() {
        Some(Verb::Close)
    } else if word == b"read".as_slice() {
        Some(Verb::Read)
    } else if word == b"text".as_slice() {
        Some(Verb::Text)
    } else if word == b"hex".as_slice() {
        Some(Verb::Hex)
    } else if word == b"fill".as_slice() {
        Some(Verb::Fill)
    } else if word == b"lseek".as_slice() {
        Some(Verb::Lseek)
    } else if word == b"dup".as_slice() {
        Some(Verb::Dup)
    } else if word == b"fstat".as_slice() {
        Some(Verb::Fstat)
    } else {
        None
    }
}

/// The verb of a call that makes or removes a name.
fn name_verb(word: &[u8]) -> Option<Verb>
    ensures { result ≡ name_verb word.now }
{
    if word == b"open".as_slice() {
        Some(Verb::Open)
    } else if word == b"creat".as_slice() {
        Some(Verb::Creat)
    } else if word == b"link".as_slice() {
        Some(Verb::Link)
    } else if word == b"unlink".as_slice() {
        Some(Verb::Unlink)
    } else if word == b"mkdir".as_slice() {
        Some(Verb::Mkdir)
    } else if word == b"rmdir".as_slice() {
        Some(Verb::Rmdir)
    } else {
        None
    }
}

/// The verb of a call on an inode, and of `umask`.
fn inode_verb(word: &[u8]) -> Option<Verb>
    ensures { result ≡ inode_verb word.now }
{
    if word == b"chdir".as_slice() {
        Some(Verb::Chdir)
    } else if word == b"stat".as_slice() {
        Some(Verb::Stat)
    } else if word == b"chmod".as_slice() {
        Some(Verb::Chmod)
    } else if word == b"chown".as_slice() {
        Some(Verb::Chown)
    } else if word == b"utime".as_slice() {
        Some(Verb::Utime)
    } else if word == b"access".as_slice() {
        Some(Verb::Access)
    } else if word == b"umask".as_slice() {
        Some(Verb::Umask)
    } else {
        None
    }
}

/// The verb that a word writes.
pub(crate) fn verb_of(word: &[u8]) -> Option<Verb>
    ensures { result ≡ verb_in word.now }
{
    match descriptor_verb(word) {
        Some(verb) => Some(verb),
        None => match name_verb(word) {
            Some(verb) => Some(verb),
            None => inode_verb(word),
        },
    }
}
