use crate::volumes::{cost, fresh, put_on, read_on, size};
use mb_gathering::GatheredBlocks;
use std::alloc::Global;
use std::process::Abort;
use std::test::Fail;

/// The bytes that are read of a file in which a byte stands, in the part before it and in its own.
fn around(heap: Global, at: u32) -> Result<u32, Fail> {
    let mut disk = fresh(heap)?;
    let _ = put_on(heap, &mut disk, at, &[9])?;
    let bytes = read_on(heap, &disk, at.saturating_sub(600), 1000)?;
    let mut wanted = [0; 601];
    wanted[600] = 9;
    if bytes.as_slice() != wanted.as_slice() {
        return Err("other bytes are read".into());
    }
    Ok(cost(&disk))
}

#[test]
fn holes_before_direct_and_single_parts(rt: HostRuntime) -> Result<(), Fail> {
    assert_eq!(rt; around(rt.alloc(), 9 * 512 + 3)?, 2);
    assert_eq!(rt; around(rt.alloc(), 10 * 512)?, 3);
    Ok(())
}

#[test]
fn holes_before_double_and_triple_parts(rt: HostRuntime) -> Result<(), Fail> {
    assert_eq!(rt; around(rt.alloc(), 138 * 512 + 511)?, 4);
    assert_eq!(rt; around(rt.alloc(), 16_522 * 512 + 5)?, 5);
    Ok(())
}

fn uncovers_bytes<R: Abort + AllocGlobal>(rt: &R, disk: &mut GatheredBlocks) -> Result<(), Fail> {
    let _ = put_on(rt.alloc(), disk, 0, &[7; 400])?;
    // size 100 of the third inode, the long's low word
    let _ = disk.blocks.patch(2, 138, &[100, 0]);
    assert_eq!(rt;
        read_on(rt.alloc(), disk, 90, 50)?.as_slice(),
        [7; 10].as_slice()
    );
    let _ = put_on(rt.alloc(), disk, 600, &[8])?;
    assert_eq!(rt; size(disk), 601);
    assert_eq!(rt;
        read_on(rt.alloc(), disk, 398, 4)?.as_slice(),
        [7, 7, 0, 0].as_slice()
    );
    Ok(())
}

/// Bytes past the size are read once the size grows over them: a part keeps its bytes whatever the size.
#[test]
fn growing_size_uncovers_bytes(rt: HostRuntime) -> Result<(), Fail> {
    let mut disk = fresh(rt.alloc())?;
    uncovers_bytes(&rt, &mut disk)
}

fn uncovers_parts<R: Abort + AllocGlobal>(rt: &R, disk: &mut GatheredBlocks) -> Result<(), Fail> {
    let _ = put_on(rt.alloc(), disk, 0, &[7; 1536])?;
    // size 100 of the third inode, the long's low word
    let _ = disk.blocks.patch(2, 138, &[100, 0]);
    assert_eq!(rt; read_on(rt.alloc(), disk, 512, 9)?.as_slice().len(), 0);
    let _ = put_on(rt.alloc(), disk, 2048, &[8])?;
    assert_eq!(rt; (cost(disk), size(disk)), (5, 2049));
    assert_eq!(rt;
        read_on(rt.alloc(), disk, 510, 4)?.as_slice(),
        [7; 4].as_slice()
    );
    assert_eq!(rt;
        read_on(rt.alloc(), disk, 1535, 2)?.as_slice(),
        [7, 0].as_slice()
    );
    Ok(())
}

/// Parts past the size keep their bytes, too, until the size grows over them.
#[test]
fn growing_size_uncovers_parts(rt: HostRuntime) -> Result<(), Fail> {
    let mut disk = fresh(rt.alloc())?;
    uncovers_parts(&rt, &mut disk)
}

fn puts_a_piece<R: Abort + AllocGlobal>(rt: &R, disk: &mut GatheredBlocks) -> Result<(), Fail> {
    let _ = put_on(rt.alloc(), disk, 0, &[1; 512])?;
    let _ = put_on(rt.alloc(), disk, 1024, &[3; 512])?;
    assert_eq!(rt;
        read_on(rt.alloc(), disk, 511, 3)?.as_slice(),
        [1, 0, 0].as_slice()
    );
    let _ = put_on(rt.alloc(), disk, 510, &[2; 516])?;
    assert_eq!(rt;
        read_on(rt.alloc(), disk, 509, 3)?.as_slice(),
        [1, 2, 2].as_slice()
    );
    assert_eq!(rt;
        read_on(rt.alloc(), disk, 1025, 2)?.as_slice(),
        [2, 3].as_slice()
    );
    assert_eq!(rt; (cost(disk), size(disk)), (4, 1536));
    Ok(())
}

/// A piece over three parts, the middle one a hole before.
#[test]
fn piece_over_parts_and_a_hole(rt: HostRuntime) -> Result<(), Fail> {
    let mut disk = fresh(rt.alloc())?;
    puts_a_piece(&rt, &mut disk)
}
