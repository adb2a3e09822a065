ghost use Rattle.std.specs.Prelude.{ℕ, List, ◌≡◌, ◌+◌, ◌*◌, ◌<◌, ◌≤◌, length, IfOk, nat_le};
ghost use Rattle.mb_tree.specs.Blocks.{part_bytes, slot_in};
ghost use Rattle.mb_tree.specs.Volume.{last_inode};
ghost use Rattle.mb_check.specs.Tallies.{KeepsCounts, KeepsParents, KeepsTallies, late_more, tally_more};

use mb_kinds::NoMemory;
use mb_layout::Slot;
use std::alloc::Global;

/// The slots after the second one of a directory that lead to an inode.
#[derive(Clone, Copy, Debug, PartialEq, Drop)]
pub enum Late {
    /// None does.
    Never,
    /// One does, of the directory with that number.
    Once(u16),
    /// Two or more do.
    Often,
}

impl Late {
    /// One more, of a directory.
    fn more(self, dir: u16) -> Late
        ensures { result ≡ late_more self dir }
    {
        match self {
            Late::Never => Late::Once(dir),
            Late::Once(_) => Late::Often,
            Late::Often => Late::Often,
        }
    }
}

/// The slots that lead to an inode.
#[derive(Clone, Copy, Debug, PartialEq, Drop)]
pub struct Tally {
    /// How many there are; 65,535 where there are more.
    pub all: u16,
    /// Those after the second one of a directory.
    pub late: Late,
}

impl Tally {
    /// One more, of a directory; a late one stands after the second.
    fn more(self, dir: u16, late: bool) -> Tally
        ensures { result ≡ tally_more self dir late }
    {
        Tally {
            all: self.all.saturating_add(1),
            late: if late { self.late.more(dir) } else { self.late },
        }
    }
}

/// One slot more, of a directory at a place, which leads to that inode.
fn add_tally(tallies: &mut [Tally], dir: u16, at: u32, ino: u16)
    ensures { (blocks : ℕ → List ℕ) → ino ≡ (slot_in blocks dir at).ino
        → KeepsTallies blocks dir at tallies.old → KeepsTallies blocks dir (at + 1) tallies.new }
{
    let place = usize::from(ino);
    if place < tallies.len() {
        let more = tallies[place].more(dir, 2 <= at);
        tallies[place] = more;
    }
}

/// The same slot: where it is the second of the directory, it leads to the directory's parent.
fn add_parent(parents: &mut [u16], dir: u16, at: u32, ino: u16)
    ensures { (blocks : ℕ → List ℕ) → ino ≡ (slot_in blocks dir at).ino
        → KeepsParents blocks dir at parents.old → KeepsParents blocks dir (at + 1) parents.new }
{
    let place = usize::from(dir);
    if at == 1 && place < parents.len() {
        parents[place] = ino;
    }
}

/// What is counted of the slots of directories, by the numbers of the inodes.
#[derive(Drop)]
pub struct SlotCounts {
    /// The slots that lead to an inode.
    pub tallies: Vec<Tally>,
    /// Of a directory, the inode to which its second slot leads.
    pub parents: Vec<u16>,
}

impl SlotCounts {
    /// Before the first directory, for the inodes up to a number.
    pub fn new(alloc: Global, last: u16) -> Result<SlotCounts, NoMemory>
        ensures { IfOk result (λ counts. (blocks : ℕ → List ℕ) → last ≡ last_inode blocks → KeepsCounts blocks 1 0 counts) }
    {
        let count = usize::from(last) + 1;
        let none = Tally {
            all: 0,
            late: Late::Never,
        };
        let tallies = vec![in alloc; none; count]?;
        let parents = vec![in alloc; 0; count]?;
        Ok(SlotCounts { tallies, parents })
    }

    /// One slot more, of a directory at a place, which leads to that inode.
    fn add(&mut self, dir: u16, at: u32, ino: u16)
        ensures { (blocks : ℕ → List ℕ) → ino ≡ (slot_in blocks dir at).ino
            → KeepsCounts blocks dir at self.old → KeepsCounts blocks dir (at + 1) self.new }
    {
        add_tally(&mut self.tallies, dir, at, ino);
        add_parent(&mut self.parents, dir, at, ino);
    }

    /// So many slots more, of one block of a directory; it is the part of that number, from 0.
    pub fn add_block(&mut self, dir: u16, part: u32, count: u8, block: &[u8; 512])
        requires count { count ≤ 32 }
        requires part { part < 8388608 }
        ensures { (blocks : ℕ → List ℕ) → block.now ≡ part_bytes blocks dir part
            → KeepsCounts blocks dir (32 * part) self.old
            → KeepsCounts blocks dir (32 * part + count) self.new }
    {
        for place in 0..count {
            self.add(
                dir,
                32 * part + u32::from(place),
                Slot::read(block, place).ino,
            );
        }
    }
}
