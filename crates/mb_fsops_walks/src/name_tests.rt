use crate::volumes::{
    MemVolume, OperationEnd, ROOT, counts, creates, creates_as, delinks, enlinks, fresh,
    is_missing, is_so, leads_to, puts, reads,
};
use mb_kinds::Errno;
use std::alloc::Global;
use std::test::Fail;

/// A volume with the file `/f` of inode 3.
fn with_file(heap: Global) -> Result<MemVolume, Fail> {
    let mut volume = fresh(heap)?;
    creates(&mut volume, ROOT, b"f", OperationEnd::Done(Some(3)))?;
    Ok(volume)
}

/// A file comes under a name that leads nowhere before.
fn gets_a_file(volume: &mut MemVolume) -> Result<(), Fail> {
    is_missing(volume, b"/f")?;
    creates(volume, ROOT, b"f", OperationEnd::Done(Some(3)))?;
    leads_to(volume, b"/f", 3)?;
    is_so(volume, 3, 0o100644, 1, 0)
}

#[test]
fn file_comes_under_a_missing_name(rt: HostRuntime) -> Result<(), Fail> {
    let mut volume = fresh(rt.alloc())?;
    gets_a_file(&mut volume)
}

/// The file's name is refused to a file and to a further link.
fn refuses_the_name(volume: &mut MemVolume) -> Result<(), Fail> {
    creates(volume, ROOT, b"f", OperationEnd::Refused(Errno::EEXIST))?;
    enlinks(volume, b"f", 3, OperationEnd::Refused(Errno::EEXIST))?;
    counts(volume, ROOT, 3)
}

#[test]
fn name_that_is_there_is_refused(rt: HostRuntime) -> Result<(), Fail> {
    let mut volume = with_file(rt.alloc())?;
    refuses_the_name(&mut volume)
}

/// A file takes the number that is demanded.
fn takes_a_number(volume: &mut MemVolume) -> Result<(), Fail> {
    creates_as(volume, b"g", 7)?;
    leads_to(volume, b"/g", 7)
}

#[test]
fn demanded_number_is_taken(rt: HostRuntime) -> Result<(), Fail> {
    let mut volume = with_file(rt.alloc())?;
    takes_a_number(&mut volume)
}

/// Bytes across the end of a block are put and read, a zero before them.
fn keeps_bytes(volume: &mut MemVolume) -> Result<(), Fail> {
    puts(volume, 3, 510, b"hello")?;
    is_so(volume, 3, 0o100644, 1, 515)?;
    reads(volume, 3, 509, b"\0hello")
}

#[test]
fn bytes_that_are_put_are_read(rt: HostRuntime) -> Result<(), Fail> {
    let mut volume = with_file(rt.alloc())?;
    keeps_bytes(&mut volume)
}

/// The file gets a further name and loses its first one.
fn changes_its_name(volume: &mut MemVolume) -> Result<(), Fail> {
    enlinks(volume, b"g", 3, OperationEnd::Done(None))?;
    is_so(volume, 3, 0o100644, 2, 0)?;
    delinks(volume, b"f", OperationEnd::Done(None))?;
    leads_to(volume, b"/g", 3)?;
    is_so(volume, 3, 0o100644, 1, 0)
}

#[test]
fn inode_stays_with_its_other_name(rt: HostRuntime) -> Result<(), Fail> {
    let mut volume = with_file(rt.alloc())?;
    changes_its_name(&mut volume)
}

/// The file goes with its name, and its number is picked again.
fn goes_with_its_name(volume: &mut MemVolume) -> Result<(), Fail> {
    delinks(volume, b"f", OperationEnd::Done(None))?;
    delinks(volume, b"f", OperationEnd::Refused(Errno::ENOENT))?;
    counts(volume, ROOT, 2)?;
    creates(volume, ROOT, b"h", OperationEnd::Done(Some(3)))
}

/// The number of the erased inode is the first that is picked again.
#[test]
fn inode_goes_with_its_last_name(rt: HostRuntime) -> Result<(), Fail> {
    let mut volume = with_file(rt.alloc())?;
    goes_with_its_name(&mut volume)
}
