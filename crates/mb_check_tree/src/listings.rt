ghost use Rattle.std.specs.Prelude.{ℕ, List, ◌≡◌, ◌+◌, ◌*◌, ◌<◌, ◌≤◌, IfSome, IfOk, OnOk};
ghost use Rattle.mb_tree.specs.Blocks.{part_bytes};
ghost use Rattle.mb_rules.specs.Slots.{slots_at};
ghost use Rattle.mb_check.specs.Directories.{KeepsDirectory, slots_in_part};
ghost use Rattle.mb_check.specs.SlotTests.{IsBroken};
ghost use Rattle.mb_check_files.specs.Passes.{DeviceCause};
ghost use Rattle.mb_check_tree.specs.Listings.{first_slots};

use mb_check::{parts_of, read_part, slots_of_part};
use mb_check_files::{InodeKept, InodeTable, Stop};
use mb_edge::Disk;
use mb_kinds::NoMemory;
use mb_layout::Slot;
use mb_tree::{PlainSlot, PlainSlots};
use std::alloc::Global;

/// So many slots of one block of a directory, behind those of the blocks before it; it is the part of that number, from 0.
fn add_slots(slots: &mut PlainSlots, count: u8, block: &[u8; 512]) -> Result<(), NoMemory>
    requires { count ≤ 32 }
    ensures { OnOk result ((blocks : ℕ → List ℕ) (dir part : ℕ) → block.now ≡ part_bytes blocks dir part
        → slots.old ≡ first_slots blocks dir (32 * part)
        → slots.new ≡ first_slots blocks dir (32 * part + count)) }
{
    for place in 0..count {
        let entry = Slot::read(block, place);
        let name = entry.name;
        slots.push(PlainSlot {
            ino: entry.ino,
            name,
        })?;
    }
    Ok(())
}

/// The slots of one part of a directory, behind those of the parts before it.
fn add_part<D: Disk>(
    disk: &mut D,
    table: &InodeTable,
    slots: &mut PlainSlots,
    kept: &InodeKept,
    part: u32,
) -> Result<(), Stop>
    requires { 512 * part < kept.now.size }
    ensures slots { OnOk result (IfSome (D.told disk.old) (λ image.
        (dir : ℕ) → KeepsDirectory image.at table.now dir kept.now
        → slots.old ≡ first_slots image.at dir (32 * part)
        → slots.new ≡ first_slots image.at dir (32 * part + slots_in_part kept.now.size part))) }
    ensures unbroken { IsBroken result → ⊥ }
    ensures told { D.told disk.new ≡ D.told disk.old }
    ensures cause { DeviceCause (D.faults disk.old) (D.faults disk.new) result }
{
    let mut block = [0; 512];
    read_part(disk, table, kept, part, &mut block)?;
    add_slots(slots, slots_of_part(kept.size, part), &block)?;
    Ok(())
}

/// The slots of a directory, in their order.
pub fn directory_slots<D: Disk>(
    alloc: Global,
    disk: &mut D,
    table: &InodeTable,
    kept: &InodeKept,
) -> Result<PlainSlots, Stop>
    ensures slots { IfOk result (λ slots.
        IfSome (D.told disk.old) (λ image. (dir : ℕ) → KeepsDirectory image.at table.now dir kept.now
        → slots ≡ slots_at image.at dir)) }
    ensures unbroken { IsBroken result → ⊥ }
    ensures told { D.told disk.new ≡ D.told disk.old }
    ensures cause { DeviceCause (D.faults disk.old) (D.faults disk.new) result }
{
    let mut slots = PlainSlots::new(alloc);
    for part in 0..parts_of(kept.size) {
        add_part(disk, table, &mut slots, kept, part)?;
    }
    Ok(slots)
}
