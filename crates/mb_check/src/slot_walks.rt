ghost use Rattle.std.specs.Prelude.{ℕ, List, ◌≡◌, ◌+◌, ◌*◌, ◌<◌, ◌≤◌, IfSome, IfOk, OnOk};
ghost use Rattle.mb_tree.specs.Volume.{last_inode};
ghost use Rattle.mb_rules.specs.Items.{each_from};
ghost use Rattle.mb_rules.specs.Slots.{directory_items, slot_items, slots_items};
ghost use Rattle.mb_check.specs.Directories.{KeepsAll, KeepsDirectory, slots_before, slots_in_part};
ghost use Rattle.mb_check.specs.SlotTests.{KnowsNames, Tests};
ghost use Rattle.mb_check.specs.Tallies.{KeepsCounts};
ghost use Rattle.mb_check_files.specs.InodeTables.{KeepsInodes};
ghost use Rattle.mb_check_files.specs.Passes.{DeviceCause};

use crate::directories::block_slots;
use crate::names::NameSet;
use crate::parts::{kept_of, parts_of, read_part, slots_of_part};
use crate::tallies::SlotCounts;
use mb_check_files::{InodeKept, InodeTable, Stop};
use mb_edge::Disk;
use mb_tree::is_directory;

/// The slots of one part of a directory, which are then counted.
fn part_slots<D: Disk>(
    disk: &mut D,
    table: &InodeTable,
    names: &mut NameSet,
    counts: &mut SlotCounts,
    dir: u16,
    kept: &InodeKept,
    part: u32,
) -> Result<(), Stop>
    requires { 512 * part < kept.now.size }
    ensures walk { IfSome (D.told disk.old) (λ image.
        (met : List ℕ) → KeepsInodes image.at table.now (last_inode image.at)
        → KeepsDirectory image.at table.now dir kept.now → KnowsNames image.at dir (32 * part) names.old
        → Tests result met (each_from (slot_items image.at dir) (32 * part) (slots_in_part kept.now.size part))) }
    ensures names { OnOk result (IfSome (D.told disk.old) (λ image.
        KeepsDirectory image.at table.now dir kept.now → KnowsNames image.at dir (32 * part) names.old
        → KnowsNames image.at dir (32 * part + slots_in_part kept.now.size part) names.new)) }
    ensures counts { OnOk result (IfSome (D.told disk.old) (λ image.
        KeepsDirectory image.at table.now dir kept.now → KeepsCounts image.at dir (32 * part) counts.old
        → KeepsCounts image.at dir (32 * part + slots_in_part kept.now.size part) counts.new)) }
    ensures told { D.told disk.new ≡ D.told disk.old }
    ensures cause { DeviceCause (D.faults disk.old) (D.faults disk.new) result }
{
    let mut block = [0; 512];
    let number = read_part(disk, table, kept, part, &mut block)?;
    let count = slots_of_part(kept.size, part);
    block_slots(names, table, dir, part, count, &block, number)?;
    counts.add_block(dir, part, count, &block);
    Ok(())
}

/// The slots of an inode, where it is a directory.
fn directory_slots<D: Disk>(
    disk: &mut D,
    table: &InodeTable,
    names: &mut NameSet,
    counts: &mut SlotCounts,
    dir: u16,
) -> Result<(), Stop>
    ensures walk { IfSome (D.told disk.old) (λ image. (met : List ℕ) → KeepsAll image.at table.now → 1 ≤ dir
        → dir ≤ last_inode image.at → Tests result met (directory_items image.at dir)) }
    ensures counts { OnOk result (IfSome (D.told disk.old) (λ image. KeepsAll image.at table.now → 1 ≤ dir
        → dir ≤ last_inode image.at → KeepsCounts image.at dir 0 counts.old
        → KeepsCounts image.at (dir + 1) 0 counts.new)) }
    ensures told { D.told disk.new ≡ D.told disk.old }
    ensures cause { DeviceCause (D.faults disk.old) (D.faults disk.new) result }
{
    let kept = kept_of(table, dir);
    if !is_directory(kept.mode) {
        return Ok(());
    }
    names.clear();
    for part in 0..parts_of(kept.size) {
        part_slots(disk, table, names, counts, dir, &kept, part)?;
    }
    Ok(())
}

/// The slots of all directories, in the order of their numbers.
pub fn each_directory<D: Disk>(
    disk: &mut D,
    table: &InodeTable,
    names: &mut NameSet,
    counts: &mut SlotCounts,
    last: u16,
) -> Result<(), Stop>
    ensures walk { IfSome (D.told disk.old) (λ image. (met : List ℕ) → KeepsAll image.at table.now
        → last ≡ last_inode image.at → Tests result met (slots_items image.at)) }
    ensures counts { OnOk result (IfSome (D.told disk.old) (λ image.
        KeepsAll image.at table.now → last ≡ last_inode image.at → KeepsCounts image.at 1 0 counts.old
        → KeepsCounts image.at (last + 1) 0 counts.new)) }
    ensures told { D.told disk.new ≡ D.told disk.old }
    ensures cause { DeviceCause (D.faults disk.old) (D.faults disk.new) result }
{
    for before in 0..last {
        directory_slots(disk, table, names, counts, before + 1)?;
    }
    Ok(())
}
