ghost use Rattle.std.specs.Prelude.{◌≤◌, ℕ, ◌-◌, List, length, ◌≡◌, IfSome, OnOk};
ghost use Rattle.mb_layout.specs.Inode.{address_in};
ghost use Rattle.mb_tree.specs.Blocks.{part_address};
ghost use Rattle.mb_tree.specs.Cost.{most_parts};
ghost use Rattle.mb_rules.specs.Items.{each_from};
ghost use Rattle.mb_rules.specs.Files.{address_items, area_items};
ghost use Rattle.mb_check_files.specs.InodeTables.{ReadsInode};
ghost use Rattle.mb_check_files.specs.PartLists.{Notes, Extends, IsPaid};
ghost use Rattle.mb_check_files.specs.Passes.{PassesInode, PassesOver, IsDevice, DeviceCause};

use crate::addresses::{double, part, single, triple};
use crate::bounds::Bounds;
use crate::part_lists::PartList;
use crate::stops::Stop;
use mb_edge::Disk;
use mb_layout::Dinode;

/// The ten direct addresses of an inode, which stands in the block `holder`.
fn direct(
    met: &mut [bool],
    bounds: &Bounds,
    parts: &mut PartList,
    inode: &Dinode,
    holder: u32,
) -> Result<(), Stop>
    requires { bounds.now.high ≤ length met.old }
    ensures walk { (blocks : ℕ → List ℕ) → PassesOver blocks bounds.now met.old met.new result
        (each_from (λ place. address_items blocks 0 holder (address_in inode.now place)) 0 10) }
    ensures notes { OnOk result (Notes parts.old parts.new (address_in inode.now) 10) }
    ensures kept { OnOk result (Extends parts.old.addresses.items parts.new.addresses.items) }
    ensures few { OnOk result (IsPaid parts.old parts.new met.old met.new) }
    ensures cause { IsDevice result → ⊥ }
{
    for place in 0..10 {
        part(met, bounds, parts, holder, inode.address(place))?;
    }
    Ok(())
}

/// The thirteen addresses of an inode, which stands in the block `holder`, and what is under them.
pub fn area<D: Disk>(
    disk: &mut D,
    met: &mut [bool],
    bounds: &Bounds,
    parts: &mut PartList,
    inode: &Dinode,
    holder: u32,
) -> Result<(), Stop>
    requires { bounds.now.high ≤ length met.old }
    ensures walk { IfSome (D.told disk.old) (λ image.
        PassesInode image.at holder inode.now bounds.now met.old met.new result (area_items image.at)) }
    ensures notes { OnOk result (IfSome (D.told disk.old) (λ image.
        (ino : ℕ) → ReadsInode image.at ino holder inode.now
        → Notes parts.old parts.new (part_address image.at ino) most_parts)) }
    ensures kept { OnOk result (Extends parts.old.addresses.items parts.new.addresses.items) }
    ensures few { OnOk result (IsPaid parts.old parts.new met.old met.new) }
    ensures told { D.told disk.new ≡ D.told disk.old }
    ensures cause { DeviceCause (D.faults disk.old) (D.faults disk.new) result }
{
    direct(met, bounds, parts, inode, holder)?;
    single(disk, met, bounds, parts, holder, inode.address(10))?;
    double(disk, met, bounds, parts, holder, inode.address(11))?;
    triple(disk, met, bounds, parts, holder, inode.address(12))?;
    Ok(())
}
