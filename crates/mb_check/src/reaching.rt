ghost use Rattle.std.specs.Prelude.{ℕ, List, true, ◌≡◌, ◌+◌, ◌-◌, ◌*◌, ◌/◌, ◌<◌, ◌≤◌, IfSome, IfOk, OnOk, slice_get, min};
ghost use Rattle.mb_tree.specs.Blocks.{part_bytes};
ghost use Rattle.mb_tree.specs.Volume.{last_inode};
ghost use Rattle.mb_rules.specs.Files.{size_at};
ghost use Rattle.mb_rules.specs.Parents.{is_reached};
ghost use Rattle.mb_check.specs.Directories.{KeepsAll, KeepsDirectory, slots_in_part};
ghost use Rattle.mb_check.specs.Reaching.{Advances, AdvancesOver, AreReached, IsReachedDirectory, Marks, Reaching, ReachesSlots};
ghost use Rattle.mb_check.specs.SlotTests.{IsBroken};
ghost use Rattle.mb_check_files.specs.Passes.{DeviceCause};

use crate::parts::{kept_of, parts_of, read_part, slots_of_part};
use mb_check_files::{InodeKept, InodeTable, Stop};
use mb_edge::Disk;
use mb_kinds::NoMemory;
use mb_layout::Slot;
use mb_tree::is_directory;
use std::alloc::Global;

/// The inodes that are reached so far: one flag an inode, and their numbers in the order in which they were reached.
#[derive(Drop)]
pub struct Reach {
    pub flags: Vec<bool>,
    pub list: Vec<u16>,
}

/// The first slot of a part that is not one of the directory's first two.
fn first_late(part: u32) -> u8
    ensures { result ≡ 2 - 32 * part }
{
    if part == 0 { 2 } else { 0 }
}

impl Reach {
    /// Nothing is reached, of the inodes up to a number.
    fn new(alloc: Global, last: u16) -> Result<Reach, NoMemory>
        ensures { IfOk result (λ reach. (blocks : ℕ → List ℕ) → last ≡ last_inode blocks → Reaching blocks reach) }
    {
        Ok(Reach {
            flags: vec![in alloc; false; usize::from(last) + 1]?,
            list: Vec::new(alloc),
        })
    }

    /// One inode more, if it was not reached before. Empty slots lead to number 0, which has no slots itself.
    fn mark(&mut self, ino: u16) -> Result<(), NoMemory>
        ensures { OnOk result ((blocks : ℕ → List ℕ)
            → (ino ≤ last_inode blocks → is_reached blocks (last_inode blocks) ino ≡ true)
            → Reaching blocks self.old → Marks blocks ino self.old self.new) }
    {
        let at = usize::from(ino);
        if at < self.flags.as_slice().len() && !self.flags[at] {
            self.list.push(ino)?;
            self.flags[at] = true;
        }
        Ok(())
    }

    /// All to which so many slots of one block of a directory lead; it is the part of that number, from 0.
    fn mark_block(&mut self, part: u32, count: u8, block: &[u8; 512]) -> Result<(), NoMemory>
        requires { count ≤ 32 }
        ensures { OnOk result ((blocks : ℕ → List ℕ) (dir : ℕ) → block.now ≡ part_bytes blocks dir part
            → IsReachedDirectory blocks dir → 32 * part + count ≤ size_at blocks dir / 16
            → Reaching blocks self.old → ReachesSlots blocks dir (32 * part) self.old → Advances blocks dir (32 * part + count) self.old self.new) }
    {
        for place in first_late(part)..count {
            self.mark(Slot::read(block, place).ino)?;
        }
        Ok(())
    }

    /// The number at a place of the list.
    fn at(&self, place: usize) -> Option<u16>
        ensures { result ≡ slice_get self.now.list.items place }
    {
        self.list.as_slice().get(place).copied()
    }
}

/// All to which the slots of a part of a directory lead is reached.
fn part_targets<D: Disk>(
    disk: &mut D,
    table: &InodeTable,
    reach: &mut Reach,
    kept: &InodeKept,
    part: u32,
) -> Result<(), Stop>
    requires { 512 * part < kept.now.size }
    ensures reach { OnOk result (IfSome (D.told disk.old) (λ image.
        (dir : ℕ) → KeepsDirectory image.at table.now dir kept.now → IsReachedDirectory image.at dir
        → Reaching image.at reach.old
        → ReachesSlots image.at dir (32 * part) reach.old → Advances image.at dir (32 * part + slots_in_part kept.now.size part) reach.old reach.new)) }
    ensures unbroken { IsBroken result → ⊥ }
    ensures told { D.told disk.new ≡ D.told disk.old }
    ensures cause { DeviceCause (D.faults disk.old) (D.faults disk.new) result }
{
    let mut block = [0; 512];
    read_part(disk, table, kept, part, &mut block)?;
    reach.mark_block(part, slots_of_part(kept.size, part), &block)?;
    Ok(())
}

/// All to which the slots of an inode lead is reached, where it is a directory.
fn directory_targets<D: Disk>(
    disk: &mut D,
    table: &InodeTable,
    reach: &mut Reach,
    dir: u16,
) -> Result<(), Stop>
    ensures reach { OnOk result (IfSome (D.told disk.old) (λ image.
        KeepsAll image.at table.now → 2 ≤ last_inode image.at → dir ≤ last_inode image.at
        → is_reached image.at (last_inode image.at) dir ≡ true
        → Reaching image.at reach.old → AdvancesOver image.at dir reach.old reach.new)) }
    ensures unbroken { IsBroken result → ⊥ }
    ensures told { D.told disk.new ≡ D.told disk.old }
    ensures cause { DeviceCause (D.faults disk.old) (D.faults disk.new) result }
{
    let kept = kept_of(table, dir);
    if !is_directory(kept.mode) {
        return Ok(());
    }
    for part in 0..parts_of(kept.size) {
        part_targets(disk, table, reach, &kept, part)?;
    }
    Ok(())
}

/// Which inodes the root reaches: each directory that it reaches is read once more, in the order of being reached.
pub fn reached<D: Disk>(
    alloc: Global,
    disk: &mut D,
    table: &InodeTable,
    last: u16,
) -> Result<Vec<bool>, Stop>
    ensures reached { IfOk result (λ flags.
        IfSome (D.told disk.old) (λ image. KeepsAll image.at table.now → last ≡ last_inode image.at → 2 ≤ last
        → AreReached image.at flags.items)) }
    ensures unbroken { IsBroken result → ⊥ }
    ensures told { D.told disk.new ≡ D.told disk.old }
    ensures cause { DeviceCause (D.faults disk.old) (D.faults disk.new) result }
{
    let mut reach = Reach::new(alloc, last)?;
    reach.mark(2)?;
    for place in 0..usize::from(last) + 1 {
        let Some(dir) = reach.at(place) else {
            return Ok(reach.flags);
        };
        directory_targets(disk, table, &mut reach, dir)?;
    }
    Ok(reach.flags)
}
