ghost use Rattle.std.specs.Prelude.{ℕ, List, ◌≡◌, ◌+◌, ◌≤◌, IfSome, IfOk, OnOk};
ghost use Rattle.mb_tree.specs.Blocks.{bytes_at};
ghost use Rattle.mb_rules.specs.TreeOf.{parts_at};
ghost use Rattle.mb_check.specs.SlotTests.{IsBroken};
ghost use Rattle.mb_check_files.specs.Indexes.{under_double, under_single, under_triple};
ghost use Rattle.mb_check_files.specs.InodeTables.{ReadsInode};
ghost use Rattle.mb_check_files.specs.Passes.{DeviceCause};
ghost use Rattle.mb_check_tree.specs.Filling.{FillsParts};

use mb_check_files::Stop;
use mb_edge::Disk;
use mb_layout::{Dinode, index_at};
use mb_tree::Parts;
use std::alloc::Global;

/// The part of that number, at an address; address 0 is a hole.
fn part<D: Disk>(disk: &mut D, parts: &mut Parts, number: u32, address: u32) -> Result<(), Stop>
    ensures fills { OnOk result (IfSome (D.told disk.old) (λ image. FillsParts image.at parts.old parts.new number 1 (λ _. address))) }
    ensures unbroken { IsBroken result → ⊥ }
    ensures told { D.told disk.new ≡ D.told disk.old }
    ensures cause { DeviceCause (D.faults disk.old) (D.faults disk.new) result }
{
    if address == 0 {
        return Ok(());
    }
    let mut block = [0; 512];
    disk.read(address, &mut block)?;
    parts.insert(number, block)?;
    Ok(())
}

/// The parts from that number on under the address of a single index block, which may be a hole.
fn single<D: Disk>(disk: &mut D, parts: &mut Parts, number: u32, address: u32) -> Result<(), Stop>
    requires { number ≤ 4000000 }
    ensures fills { OnOk result (IfSome (D.told disk.old) (λ image.
        FillsParts image.at parts.old parts.new number 128 (under_single image.at address))) }
    ensures unbroken { IsBroken result → ⊥ }
    ensures told { D.told disk.new ≡ D.told disk.old }
    ensures cause { DeviceCause (D.faults disk.old) (D.faults disk.new) result }
{
    if address == 0 {
        return Ok(());
    }
    let mut block = [0; 512];
    disk.read(address, &mut block)?;
    for place in 0..128 {
        part(
            disk,
            parts,
            number + u32::from(place),
            index_at(&block, place),
        )?;
    }
    Ok(())
}

/// The parts from that number on under the address of a double index block, which may be a hole.
fn double<D: Disk>(disk: &mut D, parts: &mut Parts, number: u32, address: u32) -> Result<(), Stop>
    requires { number ≤ 2113674 }
    ensures fills { OnOk result (IfSome (D.told disk.old) (λ image.
        FillsParts image.at parts.old parts.new number 16384 (under_double image.at address))) }
    ensures unbroken { IsBroken result → ⊥ }
    ensures told { D.told disk.new ≡ D.told disk.old }
    ensures cause { DeviceCause (D.faults disk.old) (D.faults disk.new) result }
{
    if address == 0 {
        return Ok(());
    }
    let mut block = [0; 512];
    disk.read(address, &mut block)?;
    for place in 0..128 {
        single(
            disk,
            parts,
            number + 128 * u32::from(place),
            index_at(&block, place),
        )?;
    }
    Ok(())
}

/// The parts from that number on under the address of a triple index block, which may be a hole.
fn triple<D: Disk>(disk: &mut D, parts: &mut Parts, number: u32, address: u32) -> Result<(), Stop>
    requires { number ≤ 16522 }
    ensures fills { OnOk result (IfSome (D.told disk.old) (λ image.
        FillsParts image.at parts.old parts.new number 2097152 (under_triple image.at address))) }
    ensures unbroken { IsBroken result → ⊥ }
    ensures told { D.told disk.new ≡ D.told disk.old }
    ensures cause { DeviceCause (D.faults disk.old) (D.faults disk.new) result }
{
    if address == 0 {
        return Ok(());
    }
    let mut block = [0; 512];
    disk.read(address, &mut block)?;
    for place in 0..128 {
        double(
            disk,
            parts,
            number + 16384 * u32::from(place),
            index_at(&block, place),
        )?;
    }
    Ok(())
}

/// The parts of the file of an inode, read from the disk. A broken rule is never the answer.
pub fn file_parts<D: Disk>(alloc: Global, disk: &mut D, inode: &Dinode) -> Result<Parts, Stop>
    ensures parts { IfOk result (λ parts.
        IfSome (D.told disk.old) (λ image. (ino holder : ℕ) → ReadsInode image.at ino holder inode.now
        → parts ≡ parts_at image.at ino)) }
    ensures unbroken { IsBroken result → ⊥ }
    ensures told { D.told disk.new ≡ D.told disk.old }
    ensures cause { DeviceCause (D.faults disk.old) (D.faults disk.new) result }
{
    let mut parts = Parts::new(alloc);
    for place in 0..10 {
        part(disk, &mut parts, u32::from(place), inode.address(place))?;
    }
    single(disk, &mut parts, 10, inode.address(10))?;
    double(disk, &mut parts, 138, inode.address(11))?;
    triple(disk, &mut parts, 16522, inode.address(12))?;
    Ok(parts)
}
