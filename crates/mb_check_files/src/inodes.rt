ghost use Rattle.std.specs.Prelude.{◌≤◌, ℕ, ◌+◌, ◌-◌, ◌*◌, List, length, ◌≡◌, true, IfSome, IfOk, OnOk, []};
ghost use Rattle.mb_tree.specs.Blocks.{part_address};
ghost use Rattle.mb_tree.specs.Inodes.{is_directory};
ghost use Rattle.mb_rules.specs.Items.{each_from};
ghost use Rattle.mb_rules.specs.Files as files;
ghost use Rattle.mb_rules.specs.Files.{inode_items, files_items};
ghost use Rattle.mb_check_files.specs.InodeTables.{ReadsInode, HasParts, KeepsInodes};
ghost use Rattle.mb_check_files.specs.PartLists.{Extends, IsPaid};
ghost use Rattle.mb_check_files.specs.Passes.{Stands, AreBounds, Passes, PassesInode, PassesOn, DeviceCause, count_met};

use crate::areas::area;
use crate::bounds::Bounds;
use crate::part_lists::{PartList, Run};
use crate::stops::Stop;
use mb_edge::Disk;
use mb_kinds::NoMemory;
use mb_layout::Dinode;
use mb_rules::Finding;
use mb_tree::{is_directory, is_regular, is_special};
use std::alloc::Global;

/// What is kept of an inode for the later passes.
#[derive(Clone, Copy, Debug, PartialEq, Drop)]
pub struct InodeKept {
    /// Kind and permissions; 0 where the inode is free.
    pub mode: u16,
    /// The number of slots that are said to lead to it.
    pub nlink: u16,
    /// The size in bytes.
    pub size: u32,
    /// Of a directory, where its parts begin in the list of parts.
    pub first: u32,
}

/// What is kept of all inodes, by number, and of the parts of the directories among them. There is no inode 0; its entry is
/// that of a free inode.
#[derive(Drop)]
pub struct InodeTable {
    pub inodes: Vec<InodeKept>,
    pub parts: PartList,
}

impl InodeTable {
    /// The table before the first inode.
    pub fn new(alloc: Global) -> Result<InodeTable, NoMemory>
        ensures none { IfOk result (λ table. (blocks : ℕ → List ℕ) → KeepsInodes blocks table 0) }
        ensures parts { IfOk result (λ table. table.parts.addresses.items ≡ []) }
    {
        let mut inodes = Vec::new(alloc);
        inodes.push(InodeKept {
            mode: 0,
            nlink: 0,
            size: 0,
            first: 0,
        })?;
        Ok(InodeTable {
            inodes,
            parts: PartList {
                addresses: Vec::new(alloc),
                run: Run::Torn,
            },
        })
    }
}

/// Whether a mode has one of the four kinds (rule 5).
fn is_kind(mode: u16) -> bool
    ensures { result ≡ files.is_kind mode }
{
    is_regular(mode) || is_directory(mode) || is_special(mode)
}

/// Whether a size is in the range of its kind (rule 8).
fn is_size(mode: u16, size: u32) -> bool
    ensures { result ≡ files.is_size mode size }
{
    if is_regular(mode) {
        return size <= 1082201088;
    }
    if is_directory(mode) {
        return 32 <= size && size % 16 == 0;
    }
    true
}

/// One inode, which stands in the block `holder`: its kind (rule 5), its size (rule 8), its addresses (rules 6 and 7), and
/// that a directory's parts are those below its size (rule 8), which are then listed.
fn inode<D: Disk>(
    disk: &mut D,
    met: &mut [bool],
    bounds: &Bounds,
    parts: &mut PartList,
    inode: &Dinode,
    holder: u32,
) -> Result<(), Stop>
    requires high { bounds.now.high ≤ length met.old }
    requires small { length met.old ≤ 262144 }
    ensures walk { IfSome (D.told disk.old) (λ image.
        PassesInode image.at holder inode.now bounds.now met.old met.new result (inode_items image.at)) }
    ensures listed { OnOk result (IfSome (D.told disk.old) (λ image.
        (ino : ℕ) → ReadsInode image.at ino holder inode.now → is_directory inode.now.mode ≡ true
        → HasParts parts.new.addresses.items (part_address image.at ino) (length parts.old.addresses.items) inode.now.size)) }
    ensures kept { OnOk result (Extends parts.old.addresses.items parts.new.addresses.items) }
    ensures few { OnOk result (IsPaid parts.old parts.new met.old met.new) }
    ensures told { D.told disk.new ≡ D.told disk.old }
    ensures cause { DeviceCause (D.faults disk.old) (D.faults disk.new) result }
{
    if inode.mode == 0 {
        return Ok(());
    }
    if !is_kind(inode.mode) {
        return Err(Stop::Broken(Finding {
            block: holder,
            rule: 5,
        }));
    }
    if !is_size(inode.mode, inode.size) {
        return Err(Stop::Broken(Finding {
            block: holder,
            rule: 8,
        }));
    }
    if is_special(inode.mode) {
        return Ok(());
    }
    let directory = is_directory(inode.mode);
    parts.begin(directory);
    let from = parts.listed();
    area(disk, met, bounds, parts, inode, holder)?;
    if !directory {
        return Ok(());
    }
    if !parts.covers(from, inode.size) {
        return Err(Stop::Broken(Finding {
            block: holder,
            rule: 8,
        }));
    }
    Ok(())
}

/// The eight inodes of a block of the i-list, which has that number.
fn block_inodes<D: Disk>(
    disk: &mut D,
    met: &mut [bool],
    bounds: &Bounds,
    table: &mut InodeTable,
    block: &[u8; 512],
    number: u32,
) -> Result<(), Stop>
    requires high { bounds.now.high ≤ length met.old }
    requires small { length met.old ≤ 262144 }
    requires number { 2 ≤ number }
    requires paid { length table.old.parts.addresses.items ≤ count_met met.old }
    ensures walk { IfSome (D.told disk.old) (λ image. (list : List ℕ) → block.now ≡ image.at number
        → AreBounds image.at bounds.now → Stands met.old list
        → Passes result met.new list (each_from (inode_items image.at) (8 * (number - 2) + 1) 8)) }
    ensures kept { OnOk result (IfSome (D.told disk.old) (λ image.
        block.now ≡ image.at number → KeepsInodes image.at table.old (8 * (number - 2))
        → KeepsInodes image.at table.new (8 * (number - 2) + 8))) }
    ensures few { OnOk result (length table.new.parts.addresses.items ≤ count_met met.new) }
    ensures told { D.told disk.new ≡ D.told disk.old }
    ensures cause { DeviceCause (D.faults disk.old) (D.faults disk.new) result }
{
    for place in 0..8 {
        let found = Dinode::read(block, place);
        let first = table.parts.place();
        inode(disk, met, bounds, &mut table.parts, &found, number)?;
        table.inodes.push(InodeKept {
            mode: found.mode,
            nlink: found.nlink,
            size: found.size,
            first,
        })?;
    }
    Ok(())
}

/// The inodes in increasing number, each with its addresses.
pub fn each_inode<D: Disk>(
    disk: &mut D,
    met: &mut [bool],
    bounds: &Bounds,
    table: &mut InodeTable,
) -> Result<(), Stop>
    requires low { 2 ≤ bounds.now.low }
    requires high { bounds.now.high ≤ length met.old }
    requires small { length met.old ≤ 262144 }
    requires paid { length table.old.parts.addresses.items ≤ count_met met.old }
    ensures walk { PassesOn (D.told disk.old) bounds.now met.old met.new result (λ blocks. files_items blocks) }
    ensures kept { OnOk result (IfSome (D.told disk.old) (λ image. KeepsInodes image.at table.old 0
        → KeepsInodes image.at table.new (8 * (bounds.now.low - 2)))) }
    ensures few { OnOk result (length table.new.parts.addresses.items ≤ count_met met.new) }
    ensures told { D.told disk.new ≡ D.told disk.old }
    ensures cause { DeviceCause (D.faults disk.old) (D.faults disk.new) result }
{
    let mut block = [0; 512];
    for number in 2..bounds.low {
        disk.read(number, &mut block)?;
        block_inodes(disk, met, bounds, table, &block, number)?;
    }
    Ok(())
}
