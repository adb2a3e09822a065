use crate::volumes::{
    MemVolume, OperationEnd, at_path, counts, counts_open, ends, fresh, info, is_missing,
    is_refused, leads_to, lets_go, name_at, puts, reads,
};
use mb_kinds::{Errno, Stat};
use mb_tree::FsOp;
use std::process::Abort;
use std::test::Fail;

/// Makes a file as the super-user does with mode 0644, under the name to which a path leads, and counts it
/// as open.
fn creates_at(volume: &mut MemVolume, path: &[u8], moment: u32, ino: u16) -> Result<(), Fail> {
    let (dir, name) = name_at(volume, path)?;
    let op = FsOp::Create {
        dir,
        name,
        mode: 0o644,
        uid: 0,
        gid: 0,
        moment,
    };
    ends(volume, op, OperationEnd::Done(Some(ino)))?;
    counts_open(volume, ino, 1)
}

/// Makes a directory as the super-user does with mode 0755, under the name to which a path leads.
fn makes_dir_at(volume: &mut MemVolume, path: &[u8], moment: u32, ino: u16) -> Result<(), Fail> {
    let (dir, name) = name_at(volume, path)?;
    let op = FsOp::MakeDir {
        dir,
        name,
        mode: 0o755,
        uid: 0,
        gid: 0,
        moment,
    };
    ends(volume, op, OperationEnd::Done(Some(ino)))
}

/// What stat tells of a file of the super-user with mode 0644 and one name, untouched since it was made.
fn new_file(ino: u16, moment: u32) -> Stat {
    Stat {
        ino,
        mode: 0o100644,
        nlink: 1,
        uid: 0,
        gid: 0,
        size: 0,
        atime: moment,
        mtime: moment,
        ctime: moment,
    }
}

/// The directory steps: a file of inode 3 by a name that is cut to 14 bytes, `/d` with a file in it, and
/// `/e`.
fn makes_directories(volume: &mut MemVolume) -> Result<(), Fail> {
    creates_at(volume, b"/abcdefghijklmno", 1, 3)?;
    makes_dir_at(volume, b"/d", 3, 4)?;
    creates_at(volume, b"/d/k", 4, 5)?;
    makes_dir_at(volume, b"/e", 6, 6)
}

/// The volume after the directory steps.
fn with_directories(rt: &HostRuntime) -> Result<MemVolume, Fail> {
    let mut volume = fresh(rt.alloc())?;
    makes_directories(&mut volume)?;
    Ok(volume)
}

/// A path leads to what stat tells so.
fn tells(volume: &MemVolume, path: &[u8], wanted: &Stat) -> Result<bool, Fail> {
    let stat = at_path(volume, path)?;
    Ok(stat == *wanted)
}

/// A path leads to an inode of this mode.
fn has_mode(volume: &MemVolume, path: &[u8], mode: u16) -> Result<bool, Fail> {
    let stat = at_path(volume, path)?;
    Ok(stat.mode == mode)
}

/// A name of 14 bytes or more leads to the file, and one of 13 bytes leads nowhere.
fn is_cut(rt: &impl Abort, volume: &MemVolume) -> Result<(), Fail> {
    let file = new_file(3, 1);
    assert!(rt; tells(volume, b"/abcdefghijklmn", &file)?);
    assert!(rt; tells(volume, b"/abcdefghijklmnop", &file)?);
    is_missing(volume, b"/abcdefghijklm")
}

/// Of a component the first 14 bytes count.
#[test]
fn name_of_15_bytes_is_cut(rt: HostRuntime) -> Result<(), Fail> {
    let volume = with_directories(&rt)?;
    is_cut(&rt, &volume)
}

/// `/d` has three slots in use, `/e` two.
fn is_in_use(rt: &impl Abort, volume: &MemVolume) -> Result<(), Fail> {
    assert!(rt; has_mode(volume, b"/d", 0o040755)?);
    counts(volume, 4, 3)?;
    counts(volume, 6, 2)
}

/// `rmdir` of a directory with a further name in it is refused with EEXIST: three slots are used.
#[test]
fn directory_with_a_name_is_seen_to_be_in_use(rt: HostRuntime) -> Result<(), Fail> {
    let volume = with_directories(&rt)?;
    is_in_use(&rt, &volume)
}

/// `/e` and `/d` lead to their own numbers.
fn are_known(rt: &impl Abort, volume: &MemVolume) -> Result<(), Fail> {
    assert!(rt; has_mode(volume, b"/e", 0o040755)?);
    leads_to(volume, b"/e", 6)?;
    leads_to(volume, b"/d", 4)
}

/// `rmdir` of the current directory is refused with EBUSY: the path leads to its number.
#[test]
fn current_directory_is_known_by_its_number(rt: HostRuntime) -> Result<(), Fail> {
    let volume = with_directories(&rt)?;
    are_known(&rt, &volume)
}

/// The file has a file's mode, and no path goes through it.
fn is_no_directory(rt: &impl Abort, volume: &MemVolume) -> Result<(), Fail> {
    assert!(rt; has_mode(volume, b"/abcdefghijklmn", 0o100644)?);
    is_refused(volume, b"/abcdefghijklmn/k", Errno::ENOTDIR)
}

/// `rmdir` of a file is refused with ENOTDIR: by its mode, and so is a path through it.
#[test]
fn file_is_seen_to_be_no_directory(rt: HostRuntime) -> Result<(), Fail> {
    let volume = with_directories(&rt)?;
    is_no_directory(&rt, &volume)
}

/// A file of inode 3 that is open twice loses its name.
fn loses_its_name(volume: &mut MemVolume) -> Result<(), Fail> {
    creates_at(volume, b"/f", 1, 3)?;
    ends(volume, FsOp::Hold { ino: 3 }, OperationEnd::Done(None))?;
    counts_open(volume, 3, 2)?;
    let (dir, name) = name_at(volume, b"/f")?;
    let moment = 3;
    let op = FsOp::Delink { dir, name, moment };
    ends(volume, op, OperationEnd::Done(None))?;
    is_missing(volume, b"/f")
}

/// The file without a name is written and read, and goes with the second of the two that hold it.
fn goes_with_the_second(volume: &mut MemVolume) -> Result<(), Fail> {
    puts(volume, 3, 0, b"lost")?;
    reads(volume, 3, 0, b"lost")?;
    lets_go(volume, 3, 1)?;
    reads(volume, 3, 0, b"lost")?;
    lets_go(volume, 3, 0)
}

/// The number of the file is picked again.
fn number_is_picked_again(rt: &impl Abort, volume: &mut MemVolume) -> Result<(), Fail> {
    creates_at(volume, b"/g", 8, 3)?;
    assert_eq!(rt; info(volume, 3)?, new_file(3, 8));
    Ok(())
}

/// A file that is open twice loses its name, is written and read, and goes with the second of the two; its
/// number is picked again.
fn is_read_until_it_is_let_go(rt: &impl Abort, volume: &mut MemVolume) -> Result<(), Fail> {
    loses_its_name(volume)?;
    goes_with_the_second(volume)?;
    number_is_picked_again(rt, volume)
}

#[test]
fn unlinked_file_is_read_until_it_is_let_go(rt: HostRuntime) -> Result<(), Fail> {
    let mut volume = fresh(rt.alloc())?;
    is_read_until_it_is_let_go(&rt, &mut volume)
}
