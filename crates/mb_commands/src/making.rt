ghost use Rattle.std.specs.Prelude.{◌≡◌, ◌≤◌};
ghost use Rattle.mb_edge.specs.Causes.{Rose};
ghost use Rattle.mb_commands.specs.Makes.{MakesVolume};

use crate::lines::{Line, made_line};
use mb_edge::Disk;
use mb_mkfs::{MakeFault, make};
use std::alloc::Global;

/// What came of a fresh volume that was asked for.
#[derive(Drop)]
pub enum Made {
    /// It was made; this is to be printed.
    Line(Line),
    /// No volume has these sizes; nothing was written.
    BadSizes,
    /// The disk failed: its count of faults rose. What stands in the volume's blocks is any mixture of
    /// old and new.
    DiskFault,
    /// There was no memory for the line.
    NoMemory,
}

/// Makes a fresh volume of so many blocks and inodes on a disk, with the line to be printed of it.
pub fn make_volume<D: Disk>(alloc: Global, disk: &mut D, blocks: u32, inodes: u32) -> Made
    ensures made { MakesVolume D.told disk.old disk.new blocks inodes result }
    ensures device { result ≡ Made.DiskFault → Rose (D.faults disk.old) (D.faults disk.new) }
    ensures later { D.faults disk.old ≤ D.faults disk.new }
{
    match make(disk, blocks, inodes) {
        Ok(()) => match made_line(alloc, blocks, inodes) {
            Ok(line) => Made::Line(line),
            Err(_) => Made::NoMemory,
        },
        Err(MakeFault::Sizes) => Made::BadSizes,
        Err(MakeFault::Device) => Made::DiskFault,
    }
}
