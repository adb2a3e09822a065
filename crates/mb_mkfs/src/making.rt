ghost use Rattle.std.specs.Prelude.{◌≡◌, ◌↔◌, ◌≤◌, ◌<◌, IsErrOf, OnOk};
ghost use Rattle.mb_edge.specs.Causes.{Rose};
ghost use Rattle.mb_mkfs.specs.Made.{IsMade, KeepsFrom};
ghost use Rattle.mb_mkfs.specs.Sizes.{AreSizes};
ghost use Rattle.mb_mkfs.specs.declared.making.MakeFault.TheVariants.{Device as DeviceFailed};

use crate::shapes::Shape;
use mb_edge::{Disk, Failed};

/// Why no volume was made.
#[derive(Clone, Copy, Debug, PartialEq, Eq, Drop)]
pub enum MakeFault {
    /// No volume has these sizes. Nothing was written.
    Sizes,
    /// The disk failed: its count of faults rose. What stands below the number of blocks is any mixture of old and new.
    Device,
}

impl From<Failed> for MakeFault {
    ghost from_gives = { λ _ e. e ≡ DeviceFailed };

    fn from(_failed: Failed) -> MakeFault {
        MakeFault::Device
    }
}

/// Makes a fresh volume of so many blocks and inodes on a disk, each block from the last one down to block 0 written once;
/// the disk's later blocks stay. `inodes` is a positive multiple of 8 up to 65,528, and `blocks` is from `inodes / 8 + 3`
/// up to 262,144 (this project's limits); other sizes are refused before anything is written. It takes no memory.
pub fn make<D: Disk>(disk: &mut D, blocks: u32, inodes: u32) -> Result<(), MakeFault>
    ensures made { OnOk result (IsMade (D.told disk.old) (D.told disk.new) blocks inodes) }
    ensures beyond { KeepsFrom (D.told disk.old) (D.told disk.new) blocks }
    ensures sizes { IsErrOf result MakeFault.Sizes ↔ (AreSizes blocks inodes → ⊥) }
    ensures untouched { IsErrOf result MakeFault.Sizes → disk.new ≡ disk.old }
    ensures device { IsErrOf result MakeFault.Device → Rose (D.faults disk.old) (D.faults disk.new) }
    ensures later { D.faults disk.old ≤ D.faults disk.new }
{
    let Some(shape) = Shape::new(blocks, inodes) else {
        return Err(MakeFault::Sizes);
    };
    for block in (0..blocks).rev() {
        disk.write(block, &shape.block(block))?;
    }
    Ok(())
}
