use crate::volumes::{
    MemVolume, OperationEnd, ROOT, counts, creates, creation, directory_creation, fresh, is_so,
    last_need, leads_to, makes_dir, removal, removes_dir,
};
use mb_kinds::Errno;
use std::alloc::Global;
use std::process::Abort;
use std::test::Fail;

/// A volume with the directory `/d` of inode 3.
fn with_directory(heap: Global) -> Result<MemVolume, Fail> {
    let mut volume = fresh(heap)?;
    makes_dir(&mut volume, b"d", OperationEnd::Done(Some(3)))?;
    Ok(volume)
}

/// The name is refused a second time, and the counts are those of one directory more.
fn has_one_directory(volume: &mut MemVolume) -> Result<(), Fail> {
    makes_dir(volume, b"d", OperationEnd::Refused(Errno::EEXIST))?;
    is_so(volume, 3, 0o040755, 2, 32)?;
    counts(volume, 3, 2)?;
    is_so(volume, ROOT, 0o040777, 3, 48)
}

#[test]
fn directory_comes_under_a_missing_name(rt: HostRuntime) -> Result<(), Fail> {
    let mut volume = with_directory(rt.alloc())?;
    has_one_directory(&mut volume)
}

/// The directory goes once, and the root's counts are those of a fresh volume.
fn goes(volume: &mut MemVolume) -> Result<(), Fail> {
    removes_dir(volume, b"d", OperationEnd::Done(None))?;
    removes_dir(volume, b"d", OperationEnd::Refused(Errno::ENOENT))?;
    counts(volume, ROOT, 2)?;
    is_so(volume, ROOT, 0o040777, 2, 48)
}

#[test]
fn directory_goes(rt: HostRuntime) -> Result<(), Fail> {
    let mut volume = with_directory(rt.alloc())?;
    goes(&mut volume)
}

/// A file comes into the directory, and a path over it and its parent leads there.
fn gets_a_file(volume: &mut MemVolume) -> Result<(), Fail> {
    creates(volume, 3, b"f", OperationEnd::Done(Some(4)))?;
    leads_to(volume, b"/d/../d/f", 4)?;
    counts(volume, 3, 3)
}

#[test]
fn file_comes_in_a_new_directory(rt: HostRuntime) -> Result<(), Fail> {
    let mut volume = with_directory(rt.alloc())?;
    gets_a_file(&mut volume)
}

/// The last block that the making of a file in the root asks for, without a demanded number and with one.
fn last_of_creation(volume: &MemVolume, pick: Option<u16>) -> Result<u32, Fail> {
    let op = creation(ROOT, b"f");
    match pick {
        Some(_) => last_need(volume, &op, pick, 4, &[1, 3, 2]),
        None => last_need(volume, &op, pick, 3, &[1, 2]),
    }
}

/// The last block that the making of a directory in the root asks for.
fn last_of_directory_creation(volume: &MemVolume) -> Result<u32, Fail> {
    let op = directory_creation(b"e");
    last_need(volume, &op, None, 4, &[])
}

/// The last block that the removal of the directory from the root asks for.
fn last_of_removal(volume: &MemVolume) -> Result<u32, Fail> {
    let op = removal(b"d");
    last_need(volume, &op, None, 3, &[1, 2])
}

/// Each operation in the root asks for one block last.
fn ends_with_one_block(rt: &impl Abort, volume: &MemVolume) -> Result<(), Fail> {
    let made = last_of_creation(volume, None)?;
    let demanded = last_of_creation(volume, Some(9))?;
    assert_eq!(rt; demanded, made);
    let directory = last_of_directory_creation(volume)?;
    assert_eq!(rt; directory, made);
    let gone = last_of_removal(volume)?;
    assert_eq!(rt; gone, made);
    Ok(())
}

/// What an operation can name without a search is asked for before it, so the directory's block, behind
/// which nothing is asked for, is searched once.
#[test]
fn search_of_the_directory_comes_last(rt: HostRuntime) -> Result<(), Fail> {
    let volume = with_directory(rt.alloc())?;
    ends_with_one_block(&rt, &volume)
}
