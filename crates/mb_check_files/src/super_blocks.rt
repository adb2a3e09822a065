ghost use Rattle.std.specs.Prelude.{ℕ, ◌≡◌, [], Ok, IfSome, IfOk, OnOk};
ghost use Rattle.mb_edge.specs.Blocks.{GivesBlock};
ghost use Rattle.mb_rules.specs.Items.{walked};
ghost use Rattle.mb_rules.specs.SuperBlock as rules;
ghost use Rattle.mb_rules.specs.SuperBlock.{super_block_items};
ghost use Rattle.mb_check_files.specs.Findings.{Finds, AreSized};
ghost use Rattle.mb_check_files.specs.Passes.{DeviceCause};

use crate::bounds::Bounds;
use crate::stops::Stop;
use mb_edge::Disk;
use mb_rules::Finding;
use mb_word::{long_at, word_at};

/// Whether the sizes in the super-block are in their ranges on a disk of so many blocks (rule 2).
fn are_sizes(block: &[u8; 512], blocks: u32) -> bool
    ensures { result ≡ rules.are_sizes block.now blocks }
{
    let isize = word_at(block, 0);
    let fsize = long_at(block, 2);
    3 <= isize && isize <= 8193 && u32::from(isize) < fsize && fsize <= 262144 && fsize <= blocks
}

/// Whether the counts in the super-block are in their ranges (rule 3).
fn are_counts(block: &[u8; 512]) -> bool
    ensures { result ≡ rules.are_counts block.now }
{
    word_at(block, 6) <= 50 && word_at(block, 208) <= 100
}

/// The super-block (rules 1 to 3), whose bytes are then in `block`: the numbers of the blocks that are open to files.
pub fn super_block<D: Disk>(disk: &mut D, block: &mut [u8; 512]) -> Result<Bounds, Stop>
    ensures walk { IfSome (D.told disk.old) (λ image. Finds result [] (super_block_items image)) }
    ensures passes { IfOk result (λ bounds. IfSome (D.told disk.old) (λ image. walked [] (super_block_items image) ≡ Ok [])) }
    ensures sized { IfOk result (λ bounds. AreSized block.new bounds) }
    ensures bytes { OnOk result (GivesBlock (D.told disk.old) 1 block.new) }
    ensures told { D.told disk.new ≡ D.told disk.old }
    ensures cause { DeviceCause (D.faults disk.old) (D.faults disk.new) result }
{
    let blocks = disk.blocks()?;
    if blocks < 2 {
        return Err(Stop::Broken(Finding { block: 1, rule: 1 }));
    }
    disk.read(1, block)?;
    if !are_sizes(block, blocks) {
        return Err(Stop::Broken(Finding { block: 1, rule: 2 }));
    }
    if !are_counts(block) {
        return Err(Stop::Broken(Finding { block: 1, rule: 3 }));
    }
    Ok(Bounds {
        low: u32::from(word_at(block, 0)),
        high: long_at(block, 2),
    })
}
