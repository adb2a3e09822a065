ghost use Rattle.std.specs.Prelude.{ℕ, List, true, ◌≡◌, ◌+◌, ◌≤◌, ◌&&◌, nat_eq, nat_le, if◌then◌else◌};
ghost use Rattle.mb_tree.specs.Blocks.{slot_in};
ghost use Rattle.mb_tree.specs.Inodes as inodes;
ghost use Rattle.mb_tree.specs.Volume.{last_inode};
ghost use Rattle.mb_rules.specs.Files.{mode_at};
ghost use Rattle.mb_rules.specs.Items.{each_from};
ghost use Rattle.mb_rules.specs.Parents as rules;
ghost use Rattle.mb_rules.specs.Parents.{is_reached, link_items, parent_items, parents_items};
ghost use Rattle.mb_check.specs.Directories.{KeepsAll};
ghost use Rattle.mb_check.specs.ParentTests.{KnowsLinks, fits_parent};
ghost use Rattle.mb_check.specs.Reaching.{AreReached};
ghost use Rattle.mb_check.specs.SlotTests.{Tests};
ghost use Rattle.mb_check.specs.Tallies.{KeepsCounts, KeepsTally};
ghost use Rattle.mb_check_files.specs.Passes.{IsDevice};

use crate::parts::kept_of;
use crate::tallies::{Late, SlotCounts, Tally};
use mb_check_files::{InodeTable, Stop};
use mb_layout::inode_block;
use mb_rules::Finding;
use mb_tree::is_directory;

/// What is counted of an inode.
fn tally_of(counts: &SlotCounts, ino: u16) -> Tally
    ensures { (blocks : ℕ → List ℕ) → KeepsCounts blocks (last_inode blocks + 1) 0 counts.now
        → ino ≤ last_inode blocks → KeepsTally blocks (last_inode blocks + 1) 0 ino result }
{
    match counts.tallies.as_slice().get(usize::from(ino)) {
        Some(tally) => *tally,
        None => Tally {
            all: 0,
            late: Late::Never,
        },
    }
}

/// The inode to which the second slot of a directory leads.
fn parent_of(counts: &SlotCounts, dir: u16) -> u16
    ensures { (blocks : ℕ → List ℕ) → KeepsCounts blocks (last_inode blocks + 1) 0 counts.now
        → dir ≤ last_inode blocks → inodes.is_directory (mode_at blocks dir) ≡ true
        → result ≡ (slot_in blocks dir 1).ino }
{
    match counts.parents.as_slice().get(usize::from(dir)) {
        Some(up) => *up,
        None => 0,
    }
}

/// Whether the root reaches an inode.
fn is_flagged(reached: &[bool], ino: u16) -> bool
    ensures { (blocks : ℕ → List ℕ) → AreReached blocks reached.now → ino ≤ last_inode blocks
        → result ≡ is_reached blocks (last_inode blocks) ino }
{
    match reached.get(usize::from(ino)) {
        Some(flag) => *flag,
        None => false,
    }
}

/// Rule 13 of a directory, by the slots after the second that lead to it, the inode to which its second slot leads, and
/// whether the root reaches it.
fn is_parent(late: Late, dir: u16, up: u16, reached: bool) -> bool
    ensures { result ≡ fits_parent late dir up reached }
{
    match late {
        Late::Never => dir == 2 && up == 2,
        Late::Once(holder) => dir != 2 && holder == up && reached,
        Late::Often => false,
    }
}

/// Whether a directory keeps rule 13. The root is its own parent, and no slot after the second leads to it; to another
/// directory one such slot leads, in the directory that its second slot names, and the root reaches it.
fn keeps_parent(counts: &SlotCounts, reached: &[bool], dir: u16) -> bool
    ensures { (blocks : ℕ → List ℕ) → KnowsLinks blocks counts.now reached.now → 1 ≤ dir
        → dir ≤ last_inode blocks → inodes.is_directory (mode_at blocks dir) ≡ true
        → result ≡ (if nat_eq dir 2 then rules.is_top blocks else rules.has_parent blocks dir) }
{
    is_parent(
        tally_of(counts, dir).late,
        dir,
        parent_of(counts, dir),
        is_flagged(reached, dir),
    )
}

/// Rule 13 of an inode, where it is a directory.
fn parent(table: &InodeTable, counts: &SlotCounts, reached: &[bool], ino: u16) -> Result<(), Stop>
    ensures walk { (blocks : ℕ → List ℕ) (met : List ℕ) → KeepsAll blocks table.now
        → KnowsLinks blocks counts.now reached.now → 1 ≤ ino → ino ≤ last_inode blocks
        → Tests result met (parent_items blocks ino) }
    ensures cause { IsDevice result → ⊥ }
{
    if !is_directory(kept_of(table, ino).mode) {
        return Ok(());
    }
    if !keeps_parent(counts, reached, ino) {
        return Err(Stop::Broken(Finding {
            block: inode_block(ino),
            rule: 13,
        }));
    }
    Ok(())
}

/// Whether a link count is that of the used slots that lead to an inode, and at most 32,767.
fn is_link_count(nlink: u16, tally: &Tally) -> bool
    ensures { result ≡ (nat_eq nlink tally.now.all && nat_le nlink 32767) }
{
    nlink == tally.all && nlink <= 32767
}

/// Rule 14 of an inode other than 1, where it is in use.
fn link(table: &InodeTable, counts: &SlotCounts, ino: u16) -> Result<(), Stop>
    ensures walk { (blocks : ℕ → List ℕ) (met : List ℕ) → KeepsAll blocks table.now
        → KeepsCounts blocks (last_inode blocks + 1) 0 counts.now → 1 ≤ ino → ino ≤ last_inode blocks
        → Tests result met (link_items blocks ino) }
    ensures cause { IsDevice result → ⊥ }
{
    let kept = kept_of(table, ino);
    if kept.mode == 0 || ino == 1 {
        return Ok(());
    }
    if !is_link_count(kept.nlink, &tally_of(counts, ino)) {
        return Err(Stop::Broken(Finding {
            block: inode_block(ino),
            rule: 14,
        }));
    }
    Ok(())
}

/// Rule 13 of all inodes, in the order of their numbers.
fn each_parent(
    table: &InodeTable,
    counts: &SlotCounts,
    reached: &[bool],
    last: u16,
) -> Result<(), Stop>
    ensures walk { (blocks : ℕ → List ℕ) (met : List ℕ) → KeepsAll blocks table.now
        → KnowsLinks blocks counts.now reached.now → last ≡ last_inode blocks
        → Tests result met (each_from (parent_items blocks) 1 (last_inode blocks)) }
    ensures cause { IsDevice result → ⊥ }
{
    for before in 0..last {
        parent(table, counts, reached, before + 1)?;
    }
    Ok(())
}

/// Rule 14 of all inodes, in the order of their numbers.
fn each_link(table: &InodeTable, counts: &SlotCounts, last: u16) -> Result<(), Stop>
    ensures walk { (blocks : ℕ → List ℕ) (met : List ℕ) → KeepsAll blocks table.now
        → KeepsCounts blocks (last_inode blocks + 1) 0 counts.now → last ≡ last_inode blocks
        → Tests result met (each_from (link_items blocks) 1 (last_inode blocks)) }
    ensures cause { IsDevice result → ⊥ }
{
    for before in 0..last {
        link(table, counts, before + 1)?;
    }
    Ok(())
}

/// Rule 13 of all inodes, and then rule 14.
pub fn parents(
    table: &InodeTable,
    counts: &SlotCounts,
    reached: &[bool],
    last: u16,
) -> Result<(), Stop>
    ensures walk { (blocks : ℕ → List ℕ) (met : List ℕ) → KeepsAll blocks table.now
        → KnowsLinks blocks counts.now reached.now → last ≡ last_inode blocks
        → Tests result met (parents_items blocks) }
    ensures cause { IsDevice result → ⊥ }
{
    each_parent(table, counts, reached, last)?;
    each_link(table, counts, last)?;
    Ok(())
}
