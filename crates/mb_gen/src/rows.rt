ghost use Rattle.std.specs.Prelude.{◌≡◌, ◌<◌, IfOk};
ghost use Rattle.mb_gen.specs.Calls.{close_call, creat_call, fd_of, fill_call, lseek_call, name_of, open_call, read_call, stat_call, unlink_call};

use mb_jobs::{JobCall, Text};
use mb_kinds::{Call, How, Octets, Path, Whence};
use std::alloc::{AllocError, Global};

/// The mode of a file that a call makes.
const MODE: u16 = 0o644;

/// A name of the root directory.
fn path_of(alloc: Global, name: u16) -> Result<Path, AllocError>
    requires { name < 16 }
    ensures { IfOk result (λ path. path ≡ name_of name) }
{
    Ok(Path::from_vec(format!(in alloc; "/g{name}")?.into_bytes()))
}

/// `creat /gN 644`.
pub(crate) fn creat_call(alloc: Global, caller: u8, name: u16) -> Result<JobCall, AllocError>
    requires { name < 16 }
    ensures { IfOk result (λ call. call ≡ creat_call caller name) }
{
    let text = Text::from_vec(format!(in alloc; "creat /g{name} 644")?.into_bytes());
    let path = path_of(alloc, name)?;
    Ok(JobCall {
        caller,
        text,
        call: Call::Creat { path, mode: MODE },
    })
}

/// `open /gN rw`.
pub(crate) fn open_call(alloc: Global, caller: u8, name: u16) -> Result<JobCall, AllocError>
    requires { name < 16 }
    ensures { IfOk result (λ call. call ≡ open_call caller name) }
{
    let text = Text::from_vec(format!(in alloc; "open /g{name} rw")?.into_bytes());
    let path = path_of(alloc, name)?;
    Ok(JobCall {
        caller,
        text,
        call: Call::Open {
            path,
            how: How::Both,
        },
    })
}

/// A descriptor.
fn fd_of(number: u16) -> u16
    requires { number < 4 }
    ensures { result ≡ fd_of number }
{
    3 + number
}

/// `fill F C B`.
pub(crate) fn fill_call(
    alloc: Global,
    caller: u8,
    fd: u16,
    count: u16,
    byte: u8,
) -> Result<JobCall, AllocError>
    requires fd { fd < 4 }
    ensures { IfOk result (λ call. call ≡ fill_call caller fd count byte) }
{
    let fd = fd_of(fd);
    let text = Text::from_vec(format!(in alloc; "fill {fd} {count} {byte}")?.into_bytes());
    let bytes = vec![in alloc; byte; usize::from(count)]?;
    Ok(JobCall {
        caller,
        text,
        call: Call::Write {
            fd,
            bytes: Octets::from_vec(bytes),
        },
    })
}

/// `read F C`.
pub(crate) fn read_call(
    alloc: Global,
    caller: u8,
    fd: u16,
    count: u16,
) -> Result<JobCall, AllocError>
    requires { fd < 4 }
    ensures { IfOk result (λ call. call ≡ read_call caller fd count) }
{
    let fd = fd_of(fd);
    let text = Text::from_vec(format!(in alloc; "read {fd} {count}")?.into_bytes());
    Ok(JobCall {
        caller,
        text,
        call: Call::Read { fd, count },
    })
}

/// `close F`.
pub(crate) fn close_call(alloc: Global, caller: u8, fd: u16) -> Result<JobCall, AllocError>
    requires { fd < 4 }
    ensures { IfOk result (λ call. call ≡ close_call caller fd) }
{
    let fd = fd_of(fd);
    let text = Text::from_vec(format!(in alloc; "close {fd}")?.into_bytes());
    Ok(JobCall {
        caller,
        text,
        call: Call::Close { fd },
    })
}

/// `unlink /gN`.
pub(crate) fn unlink_call(alloc: Global, caller: u8, name: u16) -> Result<JobCall, AllocError>
    requires { name < 16 }
    ensures { IfOk result (λ call. call ≡ unlink_call caller name) }
{
    let text = Text::from_vec(format!(in alloc; "unlink /g{name}")?.into_bytes());
    let path = path_of(alloc, name)?;
    Ok(JobCall {
        caller,
        text,
        call: Call::Unlink { path },
    })
}

/// `stat /gN`.
pub(crate) fn stat_call(alloc: Global, caller: u8, name: u16) -> Result<JobCall, AllocError>
    requires { name < 16 }
    ensures { IfOk result (λ call. call ≡ stat_call caller name) }
{
    let text = Text::from_vec(format!(in alloc; "stat /g{name}")?.into_bytes());
    let path = path_of(alloc, name)?;
    Ok(JobCall {
        caller,
        text,
        call: Call::Stat { path },
    })
}

/// `lseek F O 0`, from the start of the file.
pub(crate) fn lseek_call(
    alloc: Global,
    caller: u8,
    fd: u16,
    offset: u16,
) -> Result<JobCall, AllocError>
    requires { fd < 4 }
    ensures { IfOk result (λ call. call ≡ lseek_call caller fd offset) }
{
    let fd = fd_of(fd);
    let text = Text::from_vec(format!(in alloc; "lseek {fd} {offset} 0")?.into_bytes());
    Ok(JobCall {
        caller,
        text,
        call: Call::Lseek {
            fd,
            offset: i32::from(offset),
            whence: Whence::Start,
        },
    })
}
