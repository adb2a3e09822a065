ghost use Rattle.std.specs.Prelude.{ℕ, ◌≡◌, ◌<◌, ◌≤◌, length, Option, Some, IfOk, OnOk};
ghost use Rattle.mb_kinds.specs.Image.{Image, zeros};
ghost use Rattle.mb_edge.specs.Blocks.{CountsBlocks, GivesBlock, IsBlock, WritesBlock};
ghost use Rattle.mb_edge.specs.Causes.{HasCause};

use crate::faults::Failed;

/// A device of blocks of 512 bytes. `told` is its image, where it tells it, which it does always or never; `faults` counts
/// its faults.
pub trait Disk {
    ghost told: { Self → Option Image };

    ghost faults: { Self → ℕ };

    /// The number of whole blocks.
    fn blocks(&mut self) -> Result<u32, Failed>
        ensures count { IfOk result (λ count. CountsBlocks (told self.old) count) }
        ensures told { told self.new ≡ told self.old }
        ensures cause { HasCause (faults self.old) (faults self.new) result };

    /// Reads a block; one past the end reads as zeros. After a fault `into` holds any bytes.
    fn read(&mut self, block: u32, into: &mut [u8; 512]) -> Result<(), Failed>
        ensures bytes { OnOk result (GivesBlock (told self.old) block into.new) }
        ensures block { OnOk result (IsBlock into.new) }
        ensures told { told self.new ≡ told self.old }
        ensures cause { HasCause (faults self.old) (faults self.new) result };

    /// Writes a block; one past the end extends the device, with zeros in between. A write that fails leaves
    /// any bytes in that block and all others as they were.
    fn write(&mut self, block: u32, from: &[u8; 512]) -> Result<(), Failed>
        requires { block < 262144 }
        ensures bytes { WritesBlock (told self.old) (told self.new) result block from.now }
        ensures cause { HasCause (faults self.old) (faults self.new) result };

    /// Past the last block there are zeros.
    ghost past: { (disk : Self) (image : Image) (block : ℕ) → told disk ≡ Some image → image.count ≤ block → image.at block ≡ zeros };

    /// Every block has 512 bytes.
    ghost sized: { (disk : Self) (image : Image) (block : ℕ) → told disk ≡ Some image → length (image.at block) ≡ 512 };
}
