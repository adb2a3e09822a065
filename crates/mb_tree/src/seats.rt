ghost use Rattle.std.specs.Prelude.{◌≡◌, ◌<◌, length};
ghost use Rattle.std.specs.FinMap as fin;
ghost use Rattle.mb_tree.specs.Sessions.{reads, writes, free_descriptor, file_on, is_shared, inos_of, free_place, opened, doubled, closed, moved, changed, with_change, held_in, counts, HasDescriptorInRange};
ghost use Rattle.std.specs.Prelude.{IfOk, IfSome, IsSome};

use crate::operations::Inos;
use crate::tables::{Fds, Files};
use mb_kinds::{Cred, How, Seq};
use std::alloc::{AllocError, Global};

/// An open file: its inode, the directions in which it is open, and the offset of the next byte.
#[derive(Clone, Copy, Debug, Drop)]
pub struct PlainFile {
    pub ino: u16,
    pub how: How,
    pub offset: u32,
}

/// The session of one caller: who it is, its current directory, its file creation mask, which open
/// file each of its descriptors is on, and its open files. Two descriptors are on one open file exactly
/// where they have one place.
#[derive(Drop)]
pub struct Seat {
    pub cred: Cred,
    pub cwd: u16,
    pub umask: u16,
    pub fds: Fds,
    pub files: Files,
}

/// The sessions of all callers, in the order of their numbers, from 0.
pub type Seats = Seq<Seat>;

/// What a call does to its caller's session.
#[derive(Clone, Copy, Debug, Drop)]
pub enum SessionChange {
    /// Nothing.
    Same,
    /// Puts the free descriptor `fd` on a new open file with offset 0, at the least free place.
    Fresh { fd: u16, ino: u16, how: How },
    /// Puts the free descriptor `to` on the open file of `fd`.
    Twin { fd: u16, to: u16 },
    /// Frees the descriptor, and the open file with its last descriptor.
    Free { fd: u16 },
    /// Sets the offset of the descriptor's open file.
    Move { fd: u16, offset: u32 },
    /// Sets the current directory.
    Cwd { ino: u16 },
    /// Sets the file creation mask.
    Mask { mask: u16 },
    /// Frees all descriptors and open files.
    Clear,
}

/// Whether a file is open for reading.
pub fn reads(how: How) -> bool
    ensures { result ≡ reads how }
{
    match how {
        How::Reading | How::Both => true,
        How::Writing => false,
    }
}

/// Whether a file is open for writing.
pub fn writes(how: How) -> bool
    ensures { result ≡ writes how }
{
    match how {
        How::Writing | How::Both => true,
        How::Reading => false,
    }
}

impl Seat {
    /// The lowest free descriptor.
    pub fn free_descriptor(&self) -> Option<u16>
        ensures free { result ≡ free_descriptor self.now }
        ensures within { IfSome result (λ fd. fd < 20) }
    {
        self.fds.first_free()
    }

    /// The open file of a descriptor, `None` for a bad one.
    pub fn file_on(&self, fd: u16) -> Option<PlainFile>
        ensures { result ≡ file_on self.now fd }
    {
        match self.fds.get(fd) {
            Some(place) => self.files.get(place),
            None => None,
        }
    }

    /// Whether another descriptor is on the same open file.
    pub fn is_shared(&self, fd: u16) -> bool
        ensures { result ≡ is_shared self.now fd }
    {
        match self.fds.get(fd) {
            Some(place) => self.fds.without(fd).has_place(place),
            None => false,
        }
    }

    /// The inodes of the open files, one for each, by rising places.
    pub fn inos(&self, alloc: Global) -> Result<Inos, AllocError>
        ensures { IfOk result (λ inos. inos ≡ inos_of self.now) }
    {
        self.files.inos(alloc)
    }

    fn open(&mut self, fd: u16, file: PlainFile)
        requires { fd < 20 }
        ensures { self.new ≡ opened self.old fd file (free_place self.old) }
    {
        let Some(place) = self.files.first_free() else {
            return;
        };
        self.fds.insert(fd, place);
        self.files.insert(place, file);
    }

    fn double(&mut self, fd: u16, to: u16)
        requires { to < 20 }
        ensures { self.new ≡ doubled self.old to (fin.get self.old.fds fd) }
    {
        let Some(place) = self.fds.get(fd) else {
            return;
        };
        self.fds.insert(to, place);
    }

    fn close(&mut self, fd: u16)
        ensures { self.new ≡ closed self.old fd (fin.get self.old.fds fd) }
    {
        let Some(place) = self.fds.get(fd) else {
            return;
        };
        self.fds.remove(fd);
        if self.fds.has_place(place) {
            return;
        }
        self.files.remove(place);
    }

    fn seek(&mut self, fd: u16, offset: u32)
        ensures { self.new ≡ moved self.old offset (fin.get self.old.fds fd) }
    {
        let Some(place) = self.fds.get(fd) else {
            return;
        };
        let Some(file) = self.files.get(place) else {
            return;
        };
        self.files.insert(place, PlainFile { offset, ..file });
    }

    /// Makes a session change. `Fresh` and `Twin` want a descriptor below 20; nothing else is asked,
    /// and a change that names a bad descriptor changes nothing.
    pub fn change(&mut self, change: SessionChange)
        requires { HasDescriptorInRange change }
        ensures { self.new ≡ changed self.old change }
    {
        match change {
            SessionChange::Same => {}
            SessionChange::Fresh { fd, ino, how } => self.open(
                fd,
                PlainFile {
                    ino,
                    how,
                    offset: 0,
                },
            ),
            SessionChange::Twin { fd, to } => self.double(fd, to),
            SessionChange::Free { fd } => self.close(fd),
            SessionChange::Move { fd, offset } => self.seek(fd, offset),
            SessionChange::Cwd { ino } => self.cwd = ino,
            SessionChange::Mask { mask } => self.umask = mask,
            SessionChange::Clear => {
                self.fds = Fds::new();
                self.files = Files::new();
            }
        }
    }

    /// The same session again; needs no memory.
    pub fn copied(&self) -> Seat
        ensures { result ≡ self.now }
    {
        Seat {
            cred: self.cred,
            cwd: self.cwd,
            umask: self.umask,
            fds: self.fds.copied(),
            files: self.files.copied(),
        }
    }

    /// A session without a descriptor.
    pub fn new(cred: Cred, cwd: u16) -> Seat
        ensures { result ≡ record { cred = cred; cwd = cwd; umask = 0; fds = fin.empty; files = fin.empty } }
    {
        Seat {
            cred,
            cwd,
            umask: 0,
            fds: Fds::new(),
            files: Files::new(),
        }
    }
}

/// Makes a session change of one caller.
pub fn change_session(seats: &mut Seats, caller: usize, change: SessionChange)
    requires caller { caller < length seats.old }
    requires ready { HasDescriptorInRange change }
    ensures { seats.new ≡ with_change seats.old caller change }
{
    let mut seat = Seat::new(Cred { uid: 0, gid: 0 }, 0);
    seats.swap(caller, &mut seat);
    seat.change(change);
    seats.swap(caller, &mut seat);
}

/// How many open files of all callers are on an inode.
pub fn count(seats: &[Seat], ino: u16) -> u128
    ensures { result ≡ counts seats.now ino }
{
    let mut count = 0;
    for seat in seats {
        count += u128::from(seat.files.held(ino));
    }
    count
}
