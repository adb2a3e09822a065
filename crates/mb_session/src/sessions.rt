ghost use Rattle.std.specs.Prelude.{◌≡◌, ◌<◌, ◌≤◌, [], Some, length, map, slice_get, option_map, option_and_then, Decides, IfOk, IfSome};
ghost use Rattle.mb_tree.specs.Opening.{first_seat};
ghost use Rattle.mb_tree.specs.Sessions.{HasDescriptorInRange, counts, free_descriptor, free_place, is_shared, with_change};
ghost use Rattle.mb_session.specs.OpenFiles.{TellsCounts, open_file};

use crate::counting::count_seats;
use crate::open_files::OpenFile;
use crate::sameness::{same_at, same_seats};
use mb_edge::NoMemory;
use mb_iface::Opens;
use mb_kinds::{Cred, Creds};
use mb_room::Roomy;
use mb_tree::{Seat, SessionChange};
use std::alloc::Global;
use std::marker::Model;

/// The inode of the root, the current directory of a caller that begins.
const ROOT: u16 = 2;

/// The sessions of all callers, at most eight, in the order of their numbers, from 0. A contract sees the list.
#[derive(Drop)]
pub struct Sessions {
    seats: Roomy<Seat>,
}

impl Model for Sessions {
    ghost use Rattle.std.specs.Prelude.{List, length, ◌≤◌};
    ghost use Rattle.std.specs.Coded.{codes, coded_ℕ};
    ghost use Rattle.std.specs.FinMap as fin;
    ghost use Rattle.std.specs.Ordering.{nat_cmp};
    ghost use Rattle.mb_tree.specs.contracts.seats.PlainFile as file;
    ghost use Rattle.mb_tree.specs.declared.seats.Seat.{Seat};
    ghost use Rattle.mb_session.specs.Ranges.{AreInRange};

    ghost Value = { List Seat };

    ghost coded = { Prim.hlevel (codes, fin.code {R = nat_cmp} coded_ℕ coded_ℕ, fin.code {R = nat_cmp} coded_ℕ file.the_row.coded) };

    ghost view = { λ a. a.seats.items };

    ghost invariant = { λ a. (length a.seats.items ≤ 8) × AreInRange a.seats.items };
}

impl Sessions {
    /// A session for each of the credentials: in the root, with no descriptor and no bit masked. The only error is want
    /// of memory.
    pub fn new(alloc: Global, callers: &Creds) -> Result<Sessions, NoMemory>
        ensures { IfOk result (λ sessions. sessions ≡ map first_seat callers.now) }
    {
        let creds = callers.as_slice();
        let mut seats = Roomy::new(alloc);
        seats.reserve(creds.len())?;
        begin(&mut seats, creds);
        Ok(Sessions { seats })
    }

    /// The callers' sessions, in the order of their numbers.
    pub fn as_slice(&self) -> &[Seat]
        ensures { result.now ≡ self.now }
    {
        self.seats.as_slice()
    }

    /// The number of callers.
    pub fn callers(&self) -> u8
        ensures count { result ≡ length self.now }
        ensures few { length self.now ≤ 8 }
    {
        let _ = &self.seats;
        self.seats.len() as u8
    }

    /// The session of a caller, with which a call of it is planned.
    pub fn seat(&self, caller: u8) -> &Seat
        requires { caller < length self.now }
        ensures { slice_get self.now caller ≡ Some result.now }
    {
        &self.seats.as_slice()[usize::from(caller)]
    }

    /// The user and the group of a caller.
    pub fn cred(&self, caller: u8) -> Cred
        requires { caller < length self.now }
        ensures { option_map (λ seat. seat.cred) (slice_get self.now caller) ≡ Some result }
    {
        self.seat(caller).cred
    }

    /// The inode of a caller's current directory.
    pub fn cwd(&self, caller: u8) -> u16
        requires { caller < length self.now }
        ensures { option_map (λ seat. seat.cwd) (slice_get self.now caller) ≡ Some result }
    {
        self.seat(caller).cwd
    }

    /// A caller's file creation mask.
    pub fn umask(&self, caller: u8) -> u16
        requires { caller < length self.now }
        ensures { option_map (λ seat. seat.umask) (slice_get self.now caller) ≡ Some result }
    {
        self.seat(caller).umask
    }

    /// What a descriptor of a caller is on; `None` exactly where the descriptor is bad.
    pub fn file(&self, caller: u8, fd: u16) -> Option<OpenFile>
        requires { caller < length self.now }
        ensures { result ≡ option_and_then (λ seat. open_file seat fd) (slice_get self.now caller) }
    {
        file_of(self.seat(caller), fd)
    }

    /// A caller's lowest free descriptor of 3 to 19.
    pub fn free_descriptor(&self, caller: u8) -> Option<u16>
        requires { caller < length self.now }
        ensures free { result ≡ option_and_then free_descriptor (slice_get self.now caller) }
        ensures within { IfSome result (λ fd. fd < 20) }
    {
        self.seat(caller).free_descriptor()
    }

    /// A caller's least free place of 0 to 16, which its next open file takes.
    pub fn free_place(&self, caller: u8) -> Option<u8>
        requires { caller < length self.now }
        ensures free { result ≡ option_and_then free_place (slice_get self.now caller) }
        ensures within { IfSome result (λ place. place < 17) }
    {
        self.seat(caller).files.first_free()
    }

    /// How many open files of all callers are on each inode. The only error is want of memory.
    pub fn counts(&self, alloc: Global) -> Result<Opens, NoMemory>
        ensures { IfOk result (λ opens. TellsCounts opens (counts self.now)) }
    {
        count_seats(alloc, self.seats.as_slice())
    }

    /// The same sessions again, by one allocation. The only error is want of memory.
    pub fn copy(&self, alloc: Global) -> Result<Sessions, NoMemory>
        ensures { IfOk result (λ copy. copy ≡ self.now) }
    {
        let mut seats = Roomy::new(alloc);
        seats.reserve(self.seats.len())?;
        fill(&mut seats, self.seats.as_slice());
        Ok(Sessions { seats })
    }

    /// Whether a caller's own session is the same in both, or missing in both.
    pub fn agrees(&self, caller: u8, other: &Sessions) -> bool
        ensures { Decides result (slice_get self.now caller ≡ slice_get other.now caller) }
    {
        let at = usize::from(caller);
        same_at(self.seats.as_slice(), other.seats.as_slice(), at)
    }

    /// Whether both are the same sessions.
    pub fn same(&self, other: &Sessions) -> bool
        ensures { Decides result (self.now ≡ other.now) }
    {
        same_seats(self.seats.as_slice(), other.seats.as_slice())
    }

    /// Becomes a copy of other sessions of as many callers, in the room of its own; needs no memory.
    pub fn take_over(&mut self, other: &Sessions)
        requires { length self.old ≡ length other.now }
        ensures { self.new ≡ other.now }
    {
        self.seats.clear();
        fill(&mut self.seats, other.seats.as_slice());
    }

    /// Makes a change of one caller's session, and of no other. `Fresh` and `Twin` want a descriptor below 20; a change
    /// that names a bad descriptor changes nothing. Needs no memory.
    pub fn apply(&mut self, caller: u8, change: SessionChange)
        requires caller { caller < length self.old }
        requires ready { HasDescriptorInRange change }
        ensures { self.new ≡ with_change self.old caller change }
    {
        let mut seat = self.seat(caller).copied();
        seat.change(change);
        self.seats.set(usize::from(caller), seat);
    }
}

/// Fills an empty list with the sessions of callers that begin; needs no memory.
fn begin(seats: &mut Roomy<Seat>, creds: &[Cred])
    requires empty { seats.old.items ≡ [] }
    requires room { length creds.now ≤ seats.old.spare }
    ensures { seats.new.items ≡ map first_seat creds.now }
{
    for cred in creds {
        seats.push(Seat::new(*cred, ROOT));
    }
}

/// Fills an empty list with copies of sessions; needs no memory.
fn fill(seats: &mut Roomy<Seat>, from: &[Seat])
    requires empty { seats.old.items ≡ [] }
    requires room { length from.now ≤ seats.old.spare }
    ensures { seats.new.items ≡ from.now }
{
    for seat in from {
        seats.push(seat.copied());
    }
}

/// What a descriptor is on; `None` exactly where it is bad.
fn file_of(seat: &Seat, fd: u16) -> Option<OpenFile>
    ensures { result ≡ open_file seat.now fd }
{
    let place = seat.fds.get(fd)?;
    let file = seat.files.get(place)?;
    Some(OpenFile {
        place,
        ino: file.ino,
        how: file.how,
        offset: file.offset,
    })
}
