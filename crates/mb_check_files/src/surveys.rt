ghost use Rattle.std.specs.Prelude.{ℕ, List, ◌≡◌, ◌≤◌, ◌-◌, ◌*◌, [], Ok, length, IfSome, IfOk, OnOk};
ghost use Rattle.mb_rules.specs.Items.{walked};
ghost use Rattle.mb_rules.specs.SuperBlock.{super_block_items};
ghost use Rattle.mb_scan_laws.specs.Laws.{first_items};
ghost use Rattle.mb_check_files.specs.Findings.{AreSized, Finds};
ghost use Rattle.mb_check_files.specs.InodeTables.{KeepsInodes};
ghost use Rattle.mb_check_files.specs.Passes.{DeviceCause, Stands};
ghost use Rattle.mb_check_files.specs.Surveyed.{TellsFiles, TellsSpace};

use crate::bounds::Bounds;
use crate::chains::chain;
use crate::inodes::{InodeTable, each_inode};
use crate::met::met_count;
use crate::stops::Stop;
use crate::super_blocks::super_block;
use mb_edge::Disk;
use std::alloc::Global;

/// What the first three parts of the scan keep of an image.
#[derive(Drop)]
pub struct VolumeFiles {
    /// What is kept of each inode.
    pub table: InodeTable,
    /// The number of the last inode.
    pub last: u16,
    /// How many blocks the files hold.
    pub held: u32,
    /// How many blocks the free chain holds.
    pub free: u32,
}

/// How many blocks the files hold, and how many the free chain.
#[derive(Clone, Copy, Debug, PartialEq, Drop)]
struct Space {
    held: u32,
    free: u32,
}

/// The free chain, and the inodes with their addresses. `first` is the super-block, and no block was met before.
fn chain_and_files<D: Disk>(
    disk: &mut D,
    met: &mut [bool],
    bounds: &Bounds,
    first: &[u8; 512],
    table: &mut InodeTable,
) -> Result<Space, Stop>
    requires sized { AreSized first.now bounds.now }
    requires high { length met.old ≡ bounds.now.high }
    requires empty { table.old.parts.addresses.items ≡ [] }
    ensures walk { IfSome (D.told disk.old) (λ image.
        first.now ≡ image.at 1 → walked [] (super_block_items image) ≡ Ok [] → Stands met.old []
        → Finds result [] (first_items image)) }
    ensures tells { IfOk result (λ space.
        IfSome (D.told disk.old) (λ image.
        first.now ≡ image.at 1 → walked [] (super_block_items image) ≡ Ok [] → Stands met.old []
        → TellsSpace image space.held space.free)) }
    ensures kept { OnOk result (IfSome (D.told disk.old) (λ image. KeepsInodes image.at table.old 0
        → KeepsInodes image.at table.new (8 * (bounds.now.low - 2)))) }
    ensures few { OnOk result (length table.new.parts.addresses.items ≤ 262144) }
    ensures told { D.told disk.new ≡ D.told disk.old }
    ensures cause { DeviceCause (D.faults disk.old) (D.faults disk.new) result }
{
    chain(disk, met, bounds, first)?;
    let free = met_count(met);
    each_inode(disk, met, bounds, table)?;
    Ok(Space {
        held: met_count(met).saturating_sub(free),
        free,
    })
}

/// The super-block, the free chain, and the inodes with their addresses, in the order of the rules.
pub fn volume_files<D: Disk>(alloc: Global, disk: &mut D) -> Result<VolumeFiles, Stop>
    ensures walk { IfSome (D.told disk.old) (λ image. Finds result [] (first_items image)) }
    ensures tells { IfOk result (λ files. IfSome (D.told disk.old) (λ image. TellsFiles image files)) }
    ensures told { D.told disk.new ≡ D.told disk.old }
    ensures cause { DeviceCause (D.faults disk.old) (D.faults disk.new) result }
{
    let mut block = [0; 512];
    let bounds = super_block(disk, &mut block)?;
    let mut met = vec![in alloc; false; bounds.high as usize]?;
    let mut table = InodeTable::new(alloc)?;
    let Space { held, free } = chain_and_files(disk, &mut met, &bounds, &block, &mut table)?;
    Ok(VolumeFiles {
        table,
        last: 8 * (bounds.low - 2) as u16,
        held,
        free,
    })
}
