ghost use Rattle.std.specs.Prelude.{ℕ, List, ◌≡◌, ◌≤◌, ◌<◌, ◌+◌, ◌*◌, ◌/◌, OnOk};
ghost use Rattle.mb_tree.specs.Blocks.{part_address, part_bytes, slot_in};
ghost use Rattle.mb_tree.specs.Volume.{last_inode};
ghost use Rattle.mb_rules.specs.Items.{each_from};
ghost use Rattle.mb_rules.specs.Slots.{slot_items};
ghost use Rattle.mb_check_files.specs.InodeTables.{KeepsInodes};
ghost use Rattle.mb_check_files.specs.Passes.{IsDevice};
ghost use Rattle.mb_check.specs.SlotTests.{KnowsNames, Tests};

use crate::names::NameSet;
use crate::slots::{has_dots, is_named_once, leads_there};
use mb_check_files::{InodeTable, Stop};
use mb_layout::Slot;
use mb_rules::Finding;
use mb_tree::PlainSlot;

/// One slot of a directory, which stands in that block: rule 11, rule 10, and then rule 12.
pub fn slot(
    names: &mut NameSet,
    table: &InodeTable,
    ino: u16,
    at: u32,
    found: &PlainSlot,
    block: u32,
) -> Result<(), Stop>
    ensures walk { (blocks : ℕ → List ℕ) (met : List ℕ) → KeepsInodes blocks table.now (last_inode blocks)
        → found.now ≡ slot_in blocks ino at → block ≡ part_address blocks ino (at / 32)
        → KnowsNames blocks ino at names.old → Tests result met (slot_items blocks ino at) }
    ensures names { OnOk result ((blocks : ℕ → List ℕ) → found.now ≡ slot_in blocks ino at
        → KnowsNames blocks ino at names.old → KnowsNames blocks ino (at + 1) names.new) }
    ensures cause { IsDevice result → ⊥ }
{
    if !has_dots(ino, at, found) {
        return Err(Stop::Broken(Finding { block, rule: 11 }));
    }
    if !leads_there(table, found) {
        return Err(Stop::Broken(Finding { block, rule: 10 }));
    }
    let named = is_named_once(names, found)?;
    if !named {
        return Err(Stop::Broken(Finding { block, rule: 12 }));
    }
    Ok(())
}

/// So many slots of one block of a directory, which has that number; it is the part of that number, from 0.
pub fn block_slots(
    names: &mut NameSet,
    table: &InodeTable,
    ino: u16,
    part: u32,
    count: u8,
    block: &[u8; 512],
    number: u32,
) -> Result<(), Stop>
    requires count { count ≤ 32 }
    requires part { part < 8388608 }
    ensures walk { (blocks : ℕ → List ℕ) (met : List ℕ) → KeepsInodes blocks table.now (last_inode blocks)
        → block.now ≡ part_bytes blocks ino part → number ≡ part_address blocks ino part
        → KnowsNames blocks ino (32 * part) names.old
        → Tests result met (each_from (slot_items blocks ino) (32 * part) count) }
    ensures names { OnOk result ((blocks : ℕ → List ℕ) → block.now ≡ part_bytes blocks ino part
        → KnowsNames blocks ino (32 * part) names.old → KnowsNames blocks ino (32 * part + count) names.new) }
    ensures cause { IsDevice result → ⊥ }
{
    for place in 0..count {
        let entry = Slot::read(block, place);
        let name = entry.name;
        let found = PlainSlot {
            ino: entry.ino,
            name,
        };
        slot(
            names,
            table,
            ino,
            32 * part + u32::from(place),
            &found,
            number,
        )?;
    }
    Ok(())
}
