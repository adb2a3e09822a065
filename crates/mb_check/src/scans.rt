ghost use Rattle.std.specs.Prelude.{ℕ, List, ◌≡◌, ◌+◌, ◌≤◌, [], ◌∷◌, ◌++◌, cond, not, nat_eq, length, IfSome, IfOk, OnOk};
ghost use Rattle.mb_kinds.specs.Image.{Image};
ghost use Rattle.mb_tree.specs.Volume.{last_inode};
ghost use Rattle.mb_rules.specs.Files.{root_items};
ghost use Rattle.mb_rules.specs.Scan.{scan_items};
ghost use Rattle.mb_rules.specs.TreeOf.{chain_of, tree_of};
ghost use Rattle.mb_check.specs.Directories.{KeepsAll};
ghost use Rattle.mb_check.specs.SlotTests.{Tests};
ghost use Rattle.mb_check.specs.Tallies.{one_if};
ghost use Rattle.mb_check.specs.Whole.{HasFailed, IsScanned, Tells, count_nodes, fault_of, is_nameless_kept, late_items, nameless_in};
ghost use Rattle.mb_check.specs.declared.scans.OpenFault.TheVariants.{NoMemory as OutOfMemory};
ghost use Rattle.mb_check_files.specs.Findings.{Finds};
ghost use Rattle.mb_check_files.specs.Passes.{DeviceCause, IsDevice};
ghost use Rattle.mb_check_files.specs.Surveyed.{TellsFiles};

use crate::links::parents;
use crate::names::NameSet;
use crate::parts::kept_of;
use crate::reaching::reached;
use crate::slot_walks::each_directory;
use crate::tallies::SlotCounts;
use mb_check_files::{InodeKept, InodeTable, Stop, VolumeFiles, volume_files};
use mb_edge::Disk;
use mb_kinds::NoMemory;
use mb_rules::Finding;
use mb_tree::{Inos, is_directory};
use std::alloc::Global;

/// Why an image is not opened.
#[derive(Clone, Copy, Debug, PartialEq, Drop)]
pub enum OpenFault {
    /// The image breaks this rule of a volume, at this block: the first one in the order of the scan.
    Unsound { block: u32, rule: u8 },
    /// The disk failed: its count of faults rose.
    Device,
    /// There was no memory.
    NoMemory,
}

impl From<Stop> for OpenFault {
    ghost from_gives = { λ stop fault. fault ≡ fault_of stop };

    fn from(stop: Stop) -> OpenFault {
        match stop {
            Stop::Broken(Finding { block, rule }) => OpenFault::Unsound { block, rule },
            Stop::Device => OpenFault::Device,
            Stop::NoMemory => OpenFault::NoMemory,
        }
    }
}

impl From<NoMemory> for OpenFault {
    ghost from_gives = { λ _ fault. fault ≡ OutOfMemory };

    fn from(_none: NoMemory) -> OpenFault {
        OpenFault::NoMemory
    }
}

/// What the scan tells of a volume.
#[derive(Drop)]
pub struct Scan {
    /// How many inodes are in use.
    pub nodes: u32,
    /// How many blocks the files hold.
    pub held: u32,
    /// How many blocks the free chain holds.
    pub free: u32,
    /// The numbers of the regular and special files that no slot leads to, in rising order. Inode 1 is none of them.
    pub nameless: Inos,
}

/// The root is a directory (rule 9).
fn root(table: &InodeTable) -> Result<(), Stop>
    ensures walk { (blocks : ℕ → List ℕ) (met : List ℕ) → KeepsAll blocks table.now → 2 ≤ last_inode blocks
        → Tests result met (root_items blocks) }
    ensures cause { IsDevice result → ⊥ }
{
    if !is_directory(kept_of(table, 2).mode) {
        return Err(Stop::Broken(Finding { block: 2, rule: 9 }));
    }
    Ok(())
}

/// The root, the slots of all directories, and then parents and link counts.
fn late_parts<D: Disk>(
    alloc: Global,
    disk: &mut D,
    table: &InodeTable,
    last: u16,
) -> Result<(), Stop>
    ensures walk { IfSome (D.told disk.old) (λ image. (met : List ℕ) → KeepsAll image.at table.now
        → last ≡ last_inode image.at → 2 ≤ last → Tests result met (late_items image.at)) }
    ensures told { D.told disk.new ≡ D.told disk.old }
    ensures cause { DeviceCause (D.faults disk.old) (D.faults disk.new) result }
{
    root(table)?;
    let mut counts = SlotCounts::new(alloc, last)?;
    let mut names = NameSet::new(alloc);
    each_directory(disk, table, &mut names, &mut counts, last)?;
    let flags = reached(alloc, disk, table, last)?;
    parents(table, &counts, &flags, last)?;
    Ok(())
}

/// All parts of the scan, in their order; what the first three keep.
fn whole<D: Disk>(alloc: Global, disk: &mut D) -> Result<VolumeFiles, Stop>
    ensures walk { IfSome (D.told disk.old) (λ image. Finds result [] (scan_items image)) }
    ensures tells { IfOk result (λ files. IfSome (D.told disk.old) (λ image. TellsFiles image files)) }
    ensures told { D.told disk.new ≡ D.told disk.old }
    ensures cause { DeviceCause (D.faults disk.old) (D.faults disk.new) result }
{
    let files = volume_files(alloc, disk)?;
    late_parts(alloc, disk, &files.table, files.last)?;
    Ok(files)
}

/// Whether an inode is a file that no slot leads to. Inode 1 is none.
fn is_nameless(ino: u16, kept: &InodeKept) -> bool
    ensures { result ≡ is_nameless_kept ino kept.now }
{
    kept.mode != 0 && kept.nlink == 0 && !is_directory(kept.mode) && ino != 1
}

/// The inode too, where it is such a file.
fn add_nameless(inos: &mut Inos, ino: u16, kept: &InodeKept) -> Result<(), NoMemory>
    ensures { OnOk result (inos.new ≡ inos.old ++ cond (is_nameless_kept ino kept.now) (ino ∷ []) []) }
{
    if is_nameless(ino, kept) {
        inos.push(ino)?;
    }
    Ok(())
}

/// The numbers of the files that no slot leads to, in rising order.
fn nameless(alloc: Global, table: &InodeTable, last: u16) -> Result<Inos, NoMemory>
    ensures { IfOk result (λ inos. (image : Image) → KeepsAll image.at table.now → last ≡ last_inode image.at
        → inos ≡ nameless_in (tree_of image)) }
{
    let mut inos = Inos::new(alloc);
    for before in 0..last {
        add_nameless(&mut inos, before + 1, &kept_of(table, before + 1))?;
    }
    Ok(inos)
}

/// 1 for an inode in use, and 0 for a free one.
fn one_if_used(kept: &InodeKept) -> u32
    ensures { result ≡ one_if (not (nat_eq kept.now.mode 0)) }
{
    u32::from(kept.mode != 0)
}

/// How many inodes are in use.
fn nodes(table: &InodeTable, last: u16) -> u32
    ensures { (image : Image) → KeepsAll image.at table.now → last ≡ last_inode image.at → result ≡ count_nodes (tree_of image) }
{
    let mut count = 0;
    for before in 0..last {
        count += one_if_used(&kept_of(table, before + 1));
    }
    count
}

/// What the scan tells, once it found nothing.
fn scan_of(alloc: Global, files: &VolumeFiles) -> Result<Scan, NoMemory>
    ensures { IfOk result (λ told. (image : Image) → TellsFiles image files.now
        → Tells (tree_of image) (length (chain_of image.at)) told) }
{
    Ok(Scan {
        nodes: nodes(&files.table, files.last),
        held: files.held,
        free: files.free,
        nameless: nameless(alloc, &files.table, files.last)?,
    })
}

/// The scan of a disk: whether its image is a volume, with no rule broken, or the first broken rule in the order of the
/// scan with the block where it is broken. Nothing is written.
pub fn sound<D: Disk>(alloc: Global, disk: &mut D) -> Result<Scan, OpenFault>
    ensures scan { IfSome (D.told disk.old) (λ image. IsScanned image result) }
    ensures told { D.told disk.new ≡ D.told disk.old }
    ensures cause { HasFailed (D.faults disk.old) (D.faults disk.new) result }
{
    let files = whole(alloc, disk)?;
    let told = scan_of(alloc, &files)?;
    Ok(told)
}
