use crate::volumes::{Figures, all_broken, all_kept, empty, keeps, named, scanned};
use mb_check::OpenFault;
use mb_edge::{Bytes, Disk, Fails, MemDisk};
use std::alloc::Global;
use std::process::Abort;
use std::test::Fail;

#[test]
fn the_fresh_volume_is_sound(rt: HostRuntime) -> Result<(), Fail> {
    keeps(&rt, &[], named(1, 1, 95))
}

/// A disk of one block and a part of another one.
fn cut(alloc: Global) -> Result<MemDisk, Fail> {
    let bytes = Bytes::from_vec(vec![in alloc; 0; 712]?);
    let none = || Fails::new(alloc);
    Ok(MemDisk::new(alloc, bytes, 2, none(), none(), none())?)
}

/// What the scan says of that one.
fn scanned_cut(alloc: Global) -> Result<Result<Figures, OpenFault>, Fail> {
    let mut disk = cut(alloc)?;
    Ok(scanned(alloc, &mut disk))
}

fn is_none(rt: &impl Abort, alloc: Global, one: &mut MemDisk) {
    let first = Err(OpenFault::Unsound { block: 1, rule: 1 });
    assert_eq!(rt; scanned(alloc, one), first);
    assert_eq!(rt; one.write(1, &[0; 512]), Ok(()));
    assert_eq!(rt;
        scanned(alloc, one),
        Err(OpenFault::Unsound { block: 1, rule: 2 }),
        "two blocks"
    );
}

#[test]
fn a_disk_of_less_than_two_blocks_is_none(rt: HostRuntime) -> Result<(), Fail> {
    let told = scanned_cut(rt.alloc())?;
    assert_eq!(rt; told, Err(OpenFault::Unsound { block: 1, rule: 1 }));
    let none = || Fails::new(rt.alloc());
    let mut one = empty(rt.alloc(), none(), none())?;
    is_none(&rt, rt.alloc(), &mut one);
    Ok(())
}

#[test]
fn sizes_are_in_their_ranges(rt: HostRuntime) -> Result<(), Fail> {
    let broken = [
        ([(1, 0, 2)].as_slice(), 1, 2),
        (&[(1, 4, 4)], 1, 2),
        (&[(1, 4, 5)], 1, 4),
        (&[(1, 4, 101)], 1, 2),
    ];
    all_broken(&rt, &broken)?;
    keeps(&rt, &[(1, 0, 3)], named(1, 1, 95))
}

#[test]
fn counts_are_in_their_ranges(rt: HostRuntime) -> Result<(), Fail> {
    let broken = [
        ([(1, 6, 51)].as_slice(), 1, 3),
        (&[(1, 6, 50)], 54, 7),
        (&[(1, 208, 101)], 1, 3),
        (&[(50, 0, 51)], 50, 3),
    ];
    all_broken(&rt, &broken)?;
    let kept = [
        ([(1, 208, 100)].as_slice(), named(1, 1, 95)),
        (&[(50, 0, 49)], named(1, 1, 94)),
    ];
    all_kept(&rt, &kept)
}

#[test]
fn free_addresses_are_open_and_stand_once(rt: HostRuntime) -> Result<(), Fail> {
    let broken = [
        ([(1, 18, 100)].as_slice(), 1, 4),
        (&[(1, 14, 3)], 1, 4),
        (&[(1, 14, 0)], 1, 4),
        (&[(50, 8, 100)], 50, 4),
        (&[(50, 4, 50)], 50, 7),
        (&[(1, 14, 4)], 4, 7),
    ];
    all_broken(&rt, &broken)?;
    let kept = [
        ([(1, 6, 45), (1, 14, 5)].as_slice(), named(1, 1, 94)),
        (&[(1, 6, 0)], named(1, 1, 0)),
    ];
    all_kept(&rt, &kept)
}
