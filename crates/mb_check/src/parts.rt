ghost use Rattle.std.specs.Prelude.{ℕ, List, ◌≡◌, ◌+◌, ◌*◌, ◌/◌, ◌<◌, ◌≤◌, IfSome, IfOk};
ghost use Rattle.mb_edge.specs.Causes.{HasCause};
ghost use Rattle.mb_tree.specs.Blocks.{part_address};
ghost use Rattle.mb_check.specs.Directories.{IsPartRead, KeepsDirectory, slots_in_part};
ghost use Rattle.mb_check_files.specs.InodeTables.{KeepsInode, KeepsInodes};

use mb_check_files::{InodeKept, InodeTable};
use mb_edge::{Disk, Failed};

/// What is kept of an inode; of a number past the last one, what is kept of a free inode.
pub fn kept_of(table: &InodeTable, ino: u16) -> InodeKept
    ensures keeps { (blocks : ℕ → List ℕ) (last : ℕ) → KeepsInodes blocks table.now last → 1 ≤ ino
        → ino ≤ last → KeepsInode blocks table.now.parts.addresses.items ino result }
    ensures none { (blocks : ℕ → List ℕ) (last : ℕ) → KeepsInodes blocks table.now last → ino ≡ 0 → result.mode ≡ 0 }
{
    match table.inodes.as_slice().get(usize::from(ino)) {
        Some(kept) => *kept,
        None => InodeKept {
            mode: 0,
            nlink: 0,
            size: 0,
            first: 0,
        },
    }
}

/// How many parts a directory of that size has.
pub fn parts_of(size: u32) -> u32
    ensures { result ≡ (size + 511) / 512 }
{
    ((size as usize + 511) / 512) as u32
}

/// How many slots of a directory of that size stand in a part of it.
pub fn slots_of_part(size: u32, part: u32) -> u8
    requires { part < 8388608 }
    ensures { result ≡ slots_in_part size part }
{
    (size / 16).saturating_sub(32 * part).min(32) as u8
}

/// The number of the block of a directory's part; 0 where the part is not listed.
fn part_block(table: &InodeTable, kept: &InodeKept, part: u32) -> u32
    ensures { (blocks : ℕ → List ℕ) (dir : ℕ) → KeepsDirectory blocks table.now dir kept.now
        → 512 * part < kept.now.size → (0 < result) × (result ≡ part_address blocks dir part) }
{
    match table
        .parts
        .addresses
        .as_slice()
        .get(kept.first as usize + part as usize)
    {
        Some(address) => *address,
        None => 0,
    }
}

/// Reads a part of a directory; the number of its block.
pub fn read_part<D: Disk>(
    disk: &mut D,
    table: &InodeTable,
    kept: &InodeKept,
    part: u32,
    block: &mut [u8; 512],
) -> Result<u32, Failed>
    ensures part { IfOk result (λ number.
        IfSome (D.told disk.old) (λ image. (dir : ℕ) → KeepsDirectory image.at table.now dir kept.now
        → 512 * part < kept.now.size → IsPartRead image.at dir part number block.new)) }
    ensures told { D.told disk.new ≡ D.told disk.old }
    ensures cause { HasCause (D.faults disk.old) (D.faults disk.new) result }
{
    let number = part_block(table, kept, part);
    disk.read(number, block)?;
    Ok(number)
}
