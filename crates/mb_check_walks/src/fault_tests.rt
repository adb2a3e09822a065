use crate::volumes::{Figures, empty, named, scanned};
use mb_check::OpenFault;
use mb_edge::{Fails, MemDisk};
use mb_mkfs::make;
use std::alloc::Global;
use std::test::Fail;

// The one call that fails.
fn once(alloc: Global, call: u64) -> Result<Fails, Fail> {
    Ok(Fails::from_vec([call].to_vec(alloc)?))
}

// What the scan says of the fresh volume on a disk.
fn scanned_fresh(alloc: Global, disk: &mut MemDisk) -> Result<Result<Figures, OpenFault>, Fail> {
    if make(disk, 100, 16).is_err() {
        return Err("no volume was made".into());
    }
    Ok(scanned(alloc, disk))
}

// What the scan says of the fresh volume over a disk that fails one count of its blocks, or one read.
fn over(rt: &HostRuntime, count: u64, read: u64) -> Result<Result<Figures, OpenFault>, Fail> {
    let counts = once(rt.alloc(), count)?;
    let reads = once(rt.alloc(), read)?;
    let mut disk = empty(rt.alloc(), counts, reads)?;
    scanned_fresh(rt.alloc(), &mut disk)
}

#[test]
fn a_disk_that_does_not_count_its_blocks_fails_the_scan(rt: HostRuntime) -> Result<(), Fail> {
    assert_eq!(rt; over(&rt, 1, 0)?, Err(OpenFault::Device));
    Ok(())
}

// The super-block, the chain's block 50, two blocks of the i-list, and the root's block twice.
#[test]
fn a_disk_that_fails_any_read_fails_the_scan(rt: HostRuntime) -> Result<(), Fail> {
    for read in 1..7u64 {
        assert_eq!(rt; over(&rt, 0, read)?, Err(OpenFault::Device), "read {read}");
    }
    assert_eq!(rt; over(&rt, 0, 7)?, Ok(named(1, 1, 95)), "no read is left");
    Ok(())
}
