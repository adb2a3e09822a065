use crate::volumes::{
    MemVolume, OperationEnd, ROOT, creates, delinks, fresh, is_missing, is_so, opens, puts, reads,
    releases,
};
use std::alloc::Global;
use std::test::Fail;

/// A file of inode 3 is opened, gets bytes and loses its one name.
fn loses_its_name(volume: &mut MemVolume) -> Result<(), Fail> {
    creates(volume, ROOT, b"f", OperationEnd::Done(Some(3)))?;
    opens(volume, 3)?;
    puts(volume, 3, 0, b"open")?;
    delinks(volume, b"f", OperationEnd::Done(None))
}

/// A volume with an open file of inode 3, whose one name is taken out.
fn with_nameless_file(heap: Global) -> Result<MemVolume, Fail> {
    let mut volume = fresh(heap)?;
    loses_its_name(&mut volume)?;
    Ok(volume)
}

/// The file has no name and its bytes.
fn is_there_without_a_name(volume: &MemVolume) -> Result<(), Fail> {
    is_missing(volume, b"/f")?;
    is_so(volume, 3, 0o100644, 0, 4)?;
    reads(volume, 3, 0, b"open")
}

#[test]
fn open_file_stays_without_a_name(rt: HostRuntime) -> Result<(), Fail> {
    let volume = with_nameless_file(rt.alloc())?;
    is_there_without_a_name(&volume)
}

/// Another file gets another number and another block.
fn gets_another_file(volume: &mut MemVolume) -> Result<(), Fail> {
    creates(volume, ROOT, b"g", OperationEnd::Done(Some(4)))?;
    puts(volume, 4, 0, b"other")?;
    reads(volume, 3, 0, b"open")
}

#[test]
fn neither_its_number_nor_its_block_is_given_away(rt: HostRuntime) -> Result<(), Fail> {
    let mut volume = with_nameless_file(rt.alloc())?;
    gets_another_file(&mut volume)
}

/// The file goes as it is let go, and its number is picked again.
fn goes_at_its_release(volume: &mut MemVolume) -> Result<(), Fail> {
    releases(volume, 3)?;
    creates(volume, ROOT, b"h", OperationEnd::Done(Some(3)))?;
    is_so(volume, 3, 0o100644, 1, 0)
}

#[test]
fn released_file_goes(rt: HostRuntime) -> Result<(), Fail> {
    let mut volume = with_nameless_file(rt.alloc())?;
    goes_at_its_release(&mut volume)
}
