ghost use Rattle.std.specs.Prelude.{ℕ, List, Bool, ◌≡◌, ◌≤◌, ◌<◌, ◌+◌, ◌&&◌, ◌||◌, true, not, IfOk, nat_eq, slice_index, Some, slice_get, length};
ghost use Rattle.std.specs.List.{list_any};
ghost use Rattle.mb_tree.specs.Lookup.{is_named, is_used, slash};
ghost use Rattle.mb_tree.specs.Volume.{last_inode};
ghost use Rattle.mb_rules.specs.Slots as rules;
ghost use Rattle.mb_check.specs.NameSets.{has_name};
ghost use Rattle.mb_check_files.specs.InodeTables.{KeepsInodes};

use crate::names::NameSet;
use mb_check_files::InodeTable;
use mb_kinds::{Name, NoMemory};
use mb_tree::{DOT, DOT_DOT, PlainSlot, is_dots, is_used};

/// Whether a slot keeps rule 11: the first of a directory is `.` with the directory's number, the second is used and named
/// `..`, and no later used slot has one of these names. Slots count from 0.
pub fn has_dots(ino: u16, at: u32, slot: &PlainSlot) -> bool
    ensures { result ≡ rules.has_dots ino at slot.now }
{
    match at {
        0 => slot.name == DOT && slot.ino == ino,
        1 => slot.name == DOT_DOT && is_used(slot),
        _ => !is_used(slot) || !is_dots(&slot.name),
    }
}

/// Whether a slot keeps rule 10: where it is used, it leads to an inode in use other than inode 1.
pub fn leads_there(table: &InodeTable, slot: &PlainSlot) -> bool
    ensures { (blocks : ℕ → List ℕ) → KeepsInodes blocks table.now (last_inode blocks)
        → result ≡ rules.leads_there blocks slot.now }
{
    if !is_used(slot) {
        return true;
    }
    if slot.ino == 1 {
        return false;
    }
    match table.inodes.as_slice().get(usize::from(slot.ino)) {
        Some(kept) => kept.mode != 0,
        None => false,
    }
}

/// Whether after a 0 come zeros alone.
fn is_padded(name: &[u8]) -> bool
    ensures { result ≡ rules.is_padded name.now }
{
    let mut ended = false;
    for byte in name {
        if *byte != 0 && ended {
            return false;
        }
        if *byte == 0 {
            ended = true;
        }
    }
    true
}

/// Whether a name is not empty, has no slash, and is padded with zeros.
fn is_proper(name: &Name) -> bool
    ensures { result ≡ (not (nat_eq (slice_index name.now 0) 0) && not (list_any (nat_eq slash) name.now) && rules.is_padded name.now) }
{
    name[0] != 0 && !name.contains(&b'/') && is_padded(name)
}

/// Whether a slot keeps rule 12: where it is used, its name is a proper one and that of no earlier used slot. It is then one
/// of the names.
pub fn is_named_once(names: &mut NameSet, slot: &PlainSlot) -> Result<bool, NoMemory>
    ensures named { IfOk result (λ named.
        named ≡ (not (is_used slot.now) || not (nat_eq (slice_index slot.now.name 0) 0) && not (list_any (nat_eq slash) slot.now.name) && rules.is_padded slot.now.name && not (has_name names.old slot.now.name))) }
    ensures names { IfOk result (λ named. named ≡ true → (other : List ℕ)
        → has_name names.new other ≡ (is_named other slot.now || has_name names.old other)) }
{
    if !is_used(slot) {
        return Ok(true);
    }
    if !is_proper(&slot.name) {
        return Ok(false);
    }
    names.add(&slot.name)
}
