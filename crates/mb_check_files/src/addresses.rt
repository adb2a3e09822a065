ghost use Rattle.std.specs.Prelude.{◌≢◌, Err, ◌≤◌, ◌<◌, ◌+◌, ◌*◌, ◌-◌, ℕ, List, length, ◌≡◌, ◌∷◌, [], IfSome, OnOk, not, nat_eq};
ghost use Rattle.mb_edge.specs.Blocks.{GivesBlock};
ghost use Rattle.mb_word.specs.Fields.{index_entry};
ghost use Rattle.mb_tree.specs.Counting.{any_from};
ghost use Rattle.mb_rules.specs.Items.{each_from, Holds, Held};
ghost use Rattle.mb_rules.specs.Files.{address_items, leads_on};
ghost use Rattle.mb_rules.specs.FreeChain.{is_open};
ghost use Rattle.mb_check_files.specs.Passes.{PassesOn, PassesOver, IsDevice, DeviceCause, count_met};
ghost use Rattle.mb_check_files.specs.PartLists.{Notes, Extends, IsPaid};
ghost use Rattle.mb_check_files.specs.Indexes.{head_items, under_single, under_double, under_triple};

use crate::bounds::Bounds;
use crate::met::claim;
use crate::part_lists::PartList;
use crate::stops::Stop;
use mb_edge::Disk;
use mb_layout::index_at;
use mb_rules::Finding;

/// The address of a part, which may be a hole; it stands in the block `holder`.
pub fn part(
    met: &mut [bool],
    bounds: &Bounds,
    parts: &mut PartList,
    holder: u32,
    address: u32,
) -> Result<(), Stop>
    requires { bounds.now.high ≤ length met.old }
    ensures walk { (blocks : ℕ → List ℕ)
        → PassesOver blocks bounds.now met.old met.new result (address_items blocks 0 holder address) }
    ensures notes { OnOk result (Notes parts.old parts.new (λ _. address) 1) }
    ensures kept { OnOk result (Extends parts.old.addresses.items parts.new.addresses.items) }
    ensures few { OnOk result (IsPaid parts.old parts.new met.old met.new) }
    ensures cause { IsDevice result → ⊥ }
{
    if address == 0 {
        parts.pass();
        return Ok(());
    }
    claim(met, bounds, holder, 6, address)?;
    parts.add(address)?;
    Ok(())
}

/// Whether an index block holds an address.
fn holds_address(block: &[u8; 512]) -> bool
    ensures { result ≡ any_from (λ place. not (nat_eq (index_entry block.now place) 0)) 0 128 }
{
    for place in 0..128 {
        if index_at(block, place) != 0 {
            return true;
        }
    }
    false
}

/// An index block at an address that is no hole, which stands in the block `holder`: its range, that it was not met
/// before, and that it holds an address. Its bytes are then in `block`.
fn index<D: Disk>(
    disk: &mut D,
    met: &mut [bool],
    bounds: &Bounds,
    block: &mut [u8; 512],
    holder: u32,
    address: u32,
) -> Result<(), Stop>
    requires { bounds.now.high ≤ length met.old }
    ensures walk { PassesOn (D.told disk.old) bounds.now met.old met.new result (λ blocks. head_items blocks holder address) }
    ensures count { OnOk result (count_met met.new ≡ count_met met.old + 1) }
    ensures bytes { OnOk result (GivesBlock (D.told disk.old) address block.new) }
    ensures told { D.told disk.new ≡ D.told disk.old }
    ensures cause { DeviceCause (D.faults disk.old) (D.faults disk.new) result }
{
    claim(met, bounds, holder, 6, address)?;
    disk.read(address, block)?;
    if !holds_address(block) {
        return Err(Stop::Broken(Finding {
            block: address,
            rule: 6,
        }));
    }
    Ok(())
}

/// The address of a single index block, which may be a hole, and what is under it.
pub fn single<D: Disk>(
    disk: &mut D,
    met: &mut [bool],
    bounds: &Bounds,
    parts: &mut PartList,
    holder: u32,
    address: u32,
) -> Result<(), Stop>
    requires { bounds.now.high ≤ length met.old }
    ensures walk { PassesOn (D.told disk.old) bounds.now met.old met.new result (λ blocks.
        address_items blocks 1 holder address) }
    ensures notes { OnOk result (IfSome (D.told disk.old) (λ image.
        Notes parts.old parts.new (under_single image.at address) 128)) }
    ensures kept { OnOk result (Extends parts.old.addresses.items parts.new.addresses.items) }
    ensures few { OnOk result (IsPaid parts.old parts.new met.old met.new) }
    ensures told { D.told disk.new ≡ D.told disk.old }
    ensures cause { DeviceCause (D.faults disk.old) (D.faults disk.new) result }
{
    if address == 0 {
        parts.pass();
        return Ok(());
    }
    let mut block = [0; 512];
    index(disk, met, bounds, &mut block, holder, address)?;
    for place in 0..128 {
        part(met, bounds, parts, address, index_at(&block, place))?;
    }
    Ok(())
}

/// The address of a double index block, which may be a hole, and what is under it.
pub fn double<D: Disk>(
    disk: &mut D,
    met: &mut [bool],
    bounds: &Bounds,
    parts: &mut PartList,
    holder: u32,
    address: u32,
) -> Result<(), Stop>
    requires { bounds.now.high ≤ length met.old }
    ensures walk { PassesOn (D.told disk.old) bounds.now met.old met.new result (λ blocks.
        address_items blocks 2 holder address) }
    ensures notes { OnOk result (IfSome (D.told disk.old) (λ image.
        Notes parts.old parts.new (under_double image.at address) 16384)) }
    ensures kept { OnOk result (Extends parts.old.addresses.items parts.new.addresses.items) }
    ensures few { OnOk result (IsPaid parts.old parts.new met.old met.new) }
    ensures told { D.told disk.new ≡ D.told disk.old }
    ensures cause { DeviceCause (D.faults disk.old) (D.faults disk.new) result }
{
    if address == 0 {
        parts.pass();
        return Ok(());
    }
    let mut block = [0; 512];
    index(disk, met, bounds, &mut block, holder, address)?;
    for place in 0..128 {
        single(disk, met, bounds, parts, address, index_at(&block, place))?;
    }
    Ok(())
}

/// The address of a triple index block, which may be a hole, and what is under it.
pub fn triple<D: Disk>(
    disk: &mut D,
    met: &mut [bool],
    bounds: &Bounds,
    parts: &mut PartList,
    holder: u32,
    address: u32,
) -> Result<(), Stop>
    requires { bounds.now.high ≤ length met.old }
    ensures walk { PassesOn (D.told disk.old) bounds.now met.old met.new result (λ blocks.
        address_items blocks 3 holder address) }
    ensures notes { OnOk result (IfSome (D.told disk.old) (λ image.
        Notes parts.old parts.new (under_triple image.at address) 2097152)) }
    ensures kept { OnOk result (Extends parts.old.addresses.items parts.new.addresses.items) }
    ensures few { OnOk result (IsPaid parts.old parts.new met.old met.new) }
    ensures told { D.told disk.new ≡ D.told disk.old }
    ensures cause { DeviceCause (D.faults disk.old) (D.faults disk.new) result }
{
    if address == 0 {
        parts.pass();
        return Ok(());
    }
    let mut block = [0; 512];
    index(disk, met, bounds, &mut block, holder, address)?;
    for place in 0..128 {
        double(disk, met, bounds, parts, address, index_at(&block, place))?;
    }
    Ok(())
}
