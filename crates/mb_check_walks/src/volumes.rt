use mb_check::{OpenFault, sound};
use mb_edge::{Bytes, Disk, Fails, MemDisk};
use mb_mkfs::make;
use std::alloc::Global;
use std::test::Fail;

/// A byte of an image, by its block and its place there.
pub type Patch = (u32, usize, u8);

/// The figures of a volume.
#[derive(Clone, Copy, Debug, PartialEq, Drop)]
pub struct Figures {
    pub nodes: u32,
    pub held: u32,
    pub free: u32,
    pub nameless: usize,
}

/// No file without a name.
pub fn named(nodes: u32, held: u32, free: u32) -> Figures {
    Figures {
        nodes,
        held,
        free,
        nameless: 0,
    }
}

/// An empty disk with room for 100 blocks, the stated calls of which fail.
pub fn empty(alloc: Global, counts: Fails, reads: Fails) -> Result<MemDisk, Fail> {
    Ok(MemDisk::new(
        alloc,
        Bytes::new(alloc),
        100,
        counts,
        reads,
        Fails::new(alloc),
    )?)
}

/// What the scan says of a disk.
pub fn scanned(alloc: Global, disk: &mut MemDisk) -> Result<Figures, OpenFault> {
    let told = sound(alloc, disk)?;
    Ok(Figures {
        nodes: told.nodes,
        held: told.held,
        free: told.free,
        nameless: told.nameless.len(),
    })
}

// One byte changed.
fn patch(disk: &mut MemDisk, block: u32, place: usize, byte: u8) -> Result<(), Fail> {
    let mut bytes = [0; 512];
    if disk.read(block, &mut bytes).is_err() || block >= 100 {
        return Err("a block was not read".into());
    }
    if let Some(old) = bytes.get_mut(place) {
        *old = byte;
    }
    if disk.write(block, &bytes).is_err() {
        return Err("a block was not written".into());
    }
    Ok(())
}

// A fresh volume is made on a disk, and then these bytes are changed.
fn make_and_patch(disk: &mut MemDisk, patches: &[Patch]) -> Result<(), Fail> {
    if make(disk, 100, 16).is_err() {
        return Err("no volume was made".into());
    }
    for (block, place, byte) in patches {
        patch(disk, *block, *place, *byte)?;
    }
    Ok(())
}

/// The fresh volume of 100 blocks and 16 inodes with these bytes changed.
pub fn patched(alloc: Global, patches: &[Patch]) -> Result<MemDisk, Fail> {
    let mut disk = empty(alloc, Fails::new(alloc), Fails::new(alloc))?;
    make_and_patch(&mut disk, patches)?;
    Ok(disk)
}

/// What the scan says of that volume.
pub fn changed(alloc: Global, patches: &[Patch]) -> Result<Result<Figures, OpenFault>, Fail> {
    let mut disk = patched(alloc, patches)?;
    Ok(scanned(alloc, &mut disk))
}

/// The first broken rule is that one, at that block.
pub fn broken(rt: &HostRuntime, patches: &[Patch], block: u32, rule: u8) -> Result<(), Fail> {
    match changed(rt.alloc(), patches)? {
        Err(fault) => {
            if fault == (OpenFault::Unsound { block, rule }) {
                return Ok(());
            }
            Err(format!(in rt.alloc();
                "{patches:?}: {fault:?}, not rule {rule} at {block}"
            )?.into())
        }
        Ok(figures) => Err(format!(in rt.alloc();
            "{patches:?}: no broken rule, {figures:?}"
        )?.into()),
    }
}

/// Bytes that are changed, with the first rule that is broken then, behind its block.
pub type Breach<'a> = (&'a [Patch], u32, u8);

/// Each row's rule is the first that is broken.
pub fn all_broken(rt: &HostRuntime, table: &[Breach<'_>]) -> Result<(), Fail> {
    for (patches, block, rule) in table {
        broken(rt, patches, *block, *rule)?;
    }
    Ok(())
}

/// Bytes that are changed, with the figures then.
pub type KeptBytes<'a> = (&'a [Patch], Figures);

/// No rule is broken in any row, and the figures are the row's.
pub fn all_kept(rt: &HostRuntime, table: &[KeptBytes<'_>]) -> Result<(), Fail> {
    for (patches, wanted) in table {
        keeps(rt, patches, *wanted)?;
    }
    Ok(())
}

/// No rule is broken, and the figures are these.
pub fn keeps(rt: &HostRuntime, patches: &[Patch], wanted: Figures) -> Result<(), Fail> {
    match changed(rt.alloc(), patches)? {
        Ok(figures) => {
            if figures == wanted {
                return Ok(());
            }
            Err(format!(in rt.alloc(); "{patches:?}: {figures:?}, not {wanted:?}")?.into())
        }
        Err(fault) => Err(format!(in rt.alloc(); "{patches:?}: {fault:?}")?.into()),
    }
}
