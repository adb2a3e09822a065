ghost use Rattle.std.specs.Prelude.{◌≡◌, ◌<◌, ◌≤◌, Some, None, IsSome, IfSome, IfOk, not, map};
ghost use Rattle.std.specs.FinMap as fin;
ghost use Rattle.mb_tree.specs.Counting.{first_from, sum_below};
ghost use Rattle.mb_tree.specs.Sessions.{is_at_place, has_place, held_by};

use crate::operations::Inos;
use crate::seats::PlainFile;
use mb_kinds::Seq;
use std::alloc::{AllocError, Global};
use std::marker::Model;

/// The descriptors of a caller that are in use, each with the place of its open file. Descriptors are
/// below 20; a contract sees the map. No call of it needs memory.
#[derive(Drop)]
pub struct Fds {
    cells: [Option<u8>; 20],
}

impl Model for Fds {
    ghost use Rattle.std.specs.Prelude.{◌≡◌, ℕ, length};
    ghost use Rattle.std.specs.FinMap as fin;
    ghost use Rattle.std.specs.Ordering.{nat_cmp};
    ghost use Rattle.std.specs.Coded.{coded_ℕ};
    ghost use Rattle.mb_tree.specs.Cells.{from_cells};

    ghost Value = { fin.FinMap nat_cmp ℕ };

    ghost coded = { fin.code coded_ℕ coded_ℕ };

    ghost view = { λ a. from_cells a.cells };

    ghost invariant = { λ a. length a.cells ≡ 20 };
}

impl Fds {
    /// No descriptor in use.
    pub fn new() -> Fds
        ensures { result ≡ fin.empty }
    {
        Fds { cells: [None; 20] }
    }

    /// The place of a descriptor's open file.
    pub fn get(&self, fd: u16) -> Option<u8>
        ensures { result ≡ fin.get self.now fd }
    {
        let cells = &self.cells;
        let at = usize::from(fd);
        if at < 20 { cells[at] } else { None }
    }

    /// Puts a descriptor on the open file at a place.
    pub fn insert(&mut self, fd: u16, place: u8)
        requires { fd < 20 }
        ensures { self.new ≡ fin.insert self.old fd place }
    {
        self.cells[usize::from(fd)] = Some(place);
    }

    /// Frees a descriptor, where it is in use.
    pub fn remove(&mut self, fd: u16)
        ensures { self.new ≡ fin.remove self.old fd }
    {
        let _ = &self.cells;
        let at = usize::from(fd);
        if at >= 20 {
            return;
        }
        self.cells[at] = None;
    }

    /// The same descriptors again.
    pub fn copied(&self) -> Fds
        ensures { result ≡ self.now }
    {
        Fds { cells: self.cells }
    }

    /// The descriptors without one of them.
    pub fn without(&self, fd: u16) -> Fds
        ensures { result ≡ fin.remove self.now fd }
    {
        let mut rest = Fds { cells: self.cells };
        rest.remove(fd);
        rest
    }

    /// Whether a descriptor is not in use.
    fn is_free(&self, fd: u16) -> bool
        ensures { result ≡ not (fin.contains_key self.now fd) }
    {
        self.get(fd).is_none()
    }

    /// The lowest free descriptor of 3 to 19.
    pub fn first_free(&self) -> Option<u16>
        ensures free { result ≡ first_from (λ fd. not (fin.contains_key self.now fd)) 3 17 }
        ensures within { IfSome result (λ fd. fd < 20) }
    {
        let mut fd = 3;
        'turns: while fd < 20 {
            if self.is_free(fd) {
                return Some(fd);
            }
            fd += 1;
        }
        None
    }

    /// Whether a descriptor is on the open file at a place.
    fn is_at(&self, fd: u16, place: u8) -> bool
        ensures { result ≡ is_at_place place (fin.get self.now fd) }
    {
        match self.get(fd) {
            Some(other) => place == other,
            None => false,
        }
    }

    /// Whether one of the descriptors is on the open file at a place.
    pub fn has_place(&self, place: u8) -> bool
        ensures { result ≡ has_place self.now place }
    {
        let mut fd = 3;
        'turns: while fd < 20 {
            if self.is_at(fd, place) {
                return true;
            }
            fd += 1;
        }
        false
    }
}

/// The open files of a caller, by their places, which are below 17; a contract sees the map. No call of
/// it needs memory.
#[derive(Drop)]
pub struct Files {
    cells: [Option<PlainFile>; 17],
}

impl Model for Files {
    ghost use Rattle.std.specs.Prelude.{◌≡◌, length};
    ghost use Rattle.std.specs.FinMap as fin;
    ghost use Rattle.std.specs.Ordering.{nat_cmp};
    ghost use Rattle.std.specs.Coded.{coded_ℕ};
    ghost use Rattle.mb_tree.specs.Cells.{from_cells};
    ghost use Rattle.mb_tree.specs.declared.seats.PlainFile.{PlainFile};
    ghost use Rattle.mb_tree.specs.contracts.seats.PlainFile as file;

    ghost Value = { fin.FinMap nat_cmp PlainFile };

    ghost coded = { fin.code coded_ℕ file.the_row.coded };

    ghost view = { λ a. from_cells a.cells };

    ghost invariant = { λ a. length a.cells ≡ 17 };
}

impl Files {
    /// No open file.
    pub fn new() -> Files
        ensures { result ≡ fin.empty }
    {
        Files { cells: [None; 17] }
    }

    /// The same open files again.
    pub fn copied(&self) -> Files
        ensures { result ≡ self.now }
    {
        Files { cells: self.cells }
    }

    /// The open file at a place.
    pub fn get(&self, place: u8) -> Option<PlainFile>
        ensures file { result ≡ fin.get self.now place }
        ensures within { IsSome result → place < 17 }
    {
        let cells = &self.cells;
        let at = usize::from(place);
        if at < 17 { cells[at] } else { None }
    }

    /// Puts an open file at a place.
    pub fn insert(&mut self, place: u8, file: PlainFile)
        requires { place < 17 }
        ensures { self.new ≡ fin.insert self.old place file }
    {
        self.cells[usize::from(place)] = Some(file);
    }

    /// Takes the open file at a place out, where there is one.
    pub fn remove(&mut self, place: u8)
        ensures { self.new ≡ fin.remove self.old place }
    {
        let _ = &self.cells;
        let at = usize::from(place);
        if at >= 17 {
            return;
        }
        self.cells[at] = None;
    }

    /// Whether no open file has a place.
    fn is_free(&self, place: u8) -> bool
        ensures { result ≡ not (fin.contains_key self.now place) }
    {
        self.get(place).is_none()
    }

    /// The least free place.
    pub fn first_free(&self) -> Option<u8>
        ensures free { result ≡ first_from (λ place. not (fin.contains_key self.now place)) 0 17 }
        ensures within { IfSome result (λ place. place < 17) }
    {
        let mut place = 0;
        'turns: while place < 17 {
            if self.is_free(place) {
                return Some(place);
            }
            place += 1;
        }
        None
    }

    /// 1 where the open file at a place is on the inode.
    fn held_by(&self, ino: u16, place: u8) -> u8
        ensures held { result ≡ held_by ino (fin.get self.now place) }
        ensures one { result ≤ 1 }
    {
        match self.get(place) {
            Some(file) => u8::from(file.ino == ino),
            None => 0,
        }
    }

    /// How many of the open files are on the inode.
    pub fn held(&self, ino: u16) -> u8
        ensures held { result ≡ sum_below (λ place. held_by ino (fin.get self.now place)) 17 }
    {
        let mut count = 0;
        let mut place = 0;
        'turns: while place < 17 {
            count += self.held_by(ino, place);
            place += 1;
        }
        count
    }

    /// The inodes of the open files, one for each, by rising places.
    pub fn inos(&self, alloc: Global) -> Result<Inos, AllocError>
        ensures { IfOk result (λ inos. inos ≡ map (λ file. file.ino) (fin.values self.now)) }
    {
        let mut inos = Seq::new(alloc);
        for cell in &self.cells {
            let Some(file) = cell else {
                continue;
            };
            inos.push(file.ino)?;
        }
        Ok(inos)
    }
}
