ghost use Rattle.std.specs.Prelude.{◌≡◌, ◌<◌, [], None, IfOk};
ghost use Rattle.mb_gathering.specs.Growing.{ShowsAllOf, IsFrom};
ghost use Rattle.mb_kinds.specs.Changed.{changed};

use mb_iface::{Changes, Need, View};
use std::alloc::Global;
use std::test::Fail;

/// The blocks that somebody has gathered.
#[derive(Drop)]
pub struct GatheredBlocks {
    pub blocks: Changes,
}

impl View for GatheredBlocks {
    ghost use Rattle.mb_kinds.specs.Changed.{changed};

    ghost shown = { λ g. changed g.blocks };

    fn get(&self, block: u32) -> Option<&[u8; 512]> {
        self.blocks.get(block)
    }
}

/// No block.
pub fn nothing(heap: Global) -> GatheredBlocks
    ensures { result.blocks ≡ [] }
{
    GatheredBlocks {
        blocks: Changes::new(heap),
    }
}

/// The blocks of a disk without one of them. The only error is want of memory.
pub fn without(heap: Global, disk: &GatheredBlocks, lacking: u32) -> Result<GatheredBlocks, Fail>
    ensures { IfOk result (λ view. changed view.blocks lacking ≡ None) }
{
    let mut view = nothing(heap);
    for place in 0..disk.blocks.len() {
        let (block, bytes) = disk.blocks.at(place);
        if block != lacking {
            view.blocks.put(block, bytes)?;
        }
    }
    Ok(view)
}

/// Gathers a block that the view lacks, where the disk has it.
fn gather_block(disk: &GatheredBlocks, view: &mut GatheredBlocks, block: u32) -> Result<(), Fail>
    requires { block < 262144 }
    ensures grows { ShowsAllOf (changed view.old.blocks) (changed view.new.blocks) }
    ensures from { IsFrom (changed disk.now.blocks) (changed view.old.blocks) (changed view.new.blocks) }
{
    if view.blocks.get(block).is_some() {
        return Ok(());
    }
    if let Some(bytes) = disk.get(block) {
        view.blocks.put(block, bytes)?;
    }
    Ok(())
}

/// Gathers the blocks that are asked for, as far as the disk has them. An error is a first block that
/// is there already, with a view as before, or want of memory.
pub fn gather(disk: &GatheredBlocks, view: &mut GatheredBlocks, need: Need) -> Result<(), Fail>
    ensures grows { ShowsAllOf (changed view.old.blocks) (changed view.new.blocks) }
    ensures from { IsFrom (changed disk.now.blocks) (changed view.old.blocks) (changed view.new.blocks) }
{
    if view.get(need.first).is_some() {
        return Err("a block is asked for that is there".into());
    }
    for block in need.first..need.first.saturating_add(need.count).min(262_144) {
        gather_block(disk, view, block)?;
    }
    for at in 0..15 {
        let block = need.others.blocks()[at];
        if block > 0 && block < 262_144 {
            gather_block(disk, view, block)?;
        }
    }
    Ok(())
}
