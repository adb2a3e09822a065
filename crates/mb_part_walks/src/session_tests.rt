use mb_kinds::{Cred, Creds, How};
use mb_session::Sessions;
use mb_tree::SessionChange;
use std::alloc::Global;
use std::test::Fail;

fn sessions(alloc: Global) -> Result<Sessions, Fail> {
    let creds = [Cred { uid: 0, gid: 0 }, Cred { uid: 7, gid: 8 }].to_vec(alloc)?;
    Ok(Sessions::new(alloc, &Creds::from_vec(creds))?)
}

fn open(sessions: &mut Sessions, caller: u8, fd: u16, ino: u16) {
    if caller < sessions.callers() && fd < 20 {
        let how = How::Reading;
        sessions.apply(caller, SessionChange::Fresh { fd, ino, how });
    }
}

fn dup(sessions: &mut Sessions, caller: u8, fd: u16, to: u16) {
    if caller < sessions.callers() && to < 20 {
        sessions.apply(caller, SessionChange::Twin { fd, to });
    }
}

fn close(sessions: &mut Sessions, caller: u8, fd: u16) {
    if caller < sessions.callers() {
        sessions.apply(caller, SessionChange::Free { fd });
    }
}

fn seek(sessions: &mut Sessions, caller: u8, fd: u16, offset: u32) {
    if caller < sessions.callers() {
        sessions.apply(caller, SessionChange::Move { fd, offset });
    }
}

// The place, inode and offset of a descriptor's open file.
fn file(sessions: &Sessions, caller: u8, fd: u16) -> Option<(u8, u16, u32)> {
    if caller < sessions.callers() {
        let file = sessions.file(caller, fd)?;
        Some((file.place, file.ino, file.offset))
    } else {
        None
    }
}

fn free(sessions: &Sessions, caller: u8) -> Option<(u16, u8)> {
    if caller < sessions.callers() {
        Some((
            sessions.free_descriptor(caller)?,
            sessions.free_place(caller)?,
        ))
    } else {
        None
    }
}

#[test]
fn the_least_free_descriptor_and_place_are_taken(rt: HostRuntime) -> Result<(), Fail> {
    let mut sessions = sessions(rt.alloc())?;
    assert_eq!(rt; sessions.callers(), 2);
    open(&mut sessions, 1, 3, 50);
    open(&mut sessions, 1, 4, 60);
    dup(&mut sessions, 1, 3, 5);
    seek(&mut sessions, 1, 5, 9);
    assert_eq!(rt; file(&sessions, 1, 3), Some((0, 50, 9)));
    close(&mut sessions, 1, 3);
    assert_eq!(rt; file(&sessions, 1, 3), None);
    assert_eq!(rt; file(&sessions, 1, 5), Some((0, 50, 9)));
    assert_eq!(rt; free(&sessions, 1), Some((3, 2)));
    open(&mut sessions, 1, 3, 70);
    assert_eq!(rt; file(&sessions, 1, 3), Some((2, 70, 0)));
    close(&mut sessions, 1, 5);
    assert_eq!(rt; free(&sessions, 1), Some((5, 0)));
    assert_eq!(rt; free(&sessions, 0), Some((3, 0)));
    Ok(())
}

#[test]
fn a_caller_begins_in_the_root(rt: HostRuntime) -> Result<(), Fail> {
    let sessions = sessions(rt.alloc())?;
    if 1 < sessions.callers() {
        assert_eq!(rt; sessions.cred(1), Cred { uid: 7, gid: 8 });
        assert_eq!(rt; sessions.cwd(1), 2);
        assert_eq!(rt; sessions.umask(1), 0);
    }
    assert_eq!(rt; file(&sessions, 1, 3), None);
    Ok(())
}

#[test]
fn open_files_of_all_callers_are_counted(rt: HostRuntime) -> Result<(), Fail> {
    let mut sessions = sessions(rt.alloc())?;
    open(&mut sessions, 0, 3, 50);
    open(&mut sessions, 0, 4, 50);
    dup(&mut sessions, 0, 4, 5);
    open(&mut sessions, 1, 3, 50);
    open(&mut sessions, 1, 4, 60);
    let counts = sessions.counts(rt.alloc())?;
    assert_eq!(rt; counts.count(50), 3);
    assert_eq!(rt; counts.count(60), 1);
    assert_eq!(rt; counts.count(2), 0);
    Ok(())
}

#[test]
fn a_copy_stays_as_it_was(rt: HostRuntime) -> Result<(), Fail> {
    let mut now = sessions(rt.alloc())?;
    open(&mut now, 1, 3, 50);
    let mut old = now.copy(rt.alloc())?;
    close(&mut now, 1, 3);
    open(&mut now, 1, 4, 60);
    assert_eq!(rt; file(&old, 1, 3), Some((0, 50, 0)));
    assert_eq!(rt; file(&old, 1, 4), None);
    if old.callers() == 2 && now.callers() == 2 {
        old.take_over(&now);
    }
    assert_eq!(rt; file(&old, 1, 3), None);
    assert_eq!(rt; file(&old, 1, 4), Some((0, 60, 0)));
    Ok(())
}
