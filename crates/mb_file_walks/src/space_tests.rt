use crate::volumes::{
    Ended, cost, empty_on, erase_on, free, fresh, fresh_of, put_on, read_on, size,
};
use mb_gathering::{GatheredBlocks, Size};
use mb_kinds::Errno;
use std::process::Abort;
use std::test::Fail;

/// 94 parts and one index block use the 95 free blocks up.
#[test]
fn file_fills_the_volume(rt: HostRuntime) -> Result<(), Fail> {
    let mut disk = fresh(rt.alloc())?;
    assert_eq!(rt; (cost(&disk), free(&disk)), (1, 95));
    let bytes = vec![in rt.alloc(); 65; 48_128]?;
    let _ = put_on(rt.alloc(), &mut disk, 0, &bytes)?;
    assert_eq!(rt; (cost(&disk), free(&disk), size(&disk)), (96, 0, 48_128));
    Ok(())
}

fn refuses_a_byte<R: Abort + AllocGlobal>(rt: &R, disk: &mut GatheredBlocks) -> Result<(), Fail> {
    let bytes = vec![in rt.alloc(); 65; 48_128]?;
    let _ = put_on(rt.alloc(), disk, 0, &bytes)?;
    let more = put_on(rt.alloc(), disk, 48_128, &[1])?;
    assert_eq!(rt; matches!(more, Ended::Refused(Errno::ENOSPC, _)), true);
    let past = put_on(rt.alloc(), disk, 1_082_201_088, &[1])?;
    assert_eq!(rt; matches!(past, Ended::Refused(Errno::EFBIG, _)), true);
    let again = put_on(rt.alloc(), disk, 0, &bytes)?;
    assert_eq!(rt; matches!(again, Ended::Done(_)), true);
    assert_eq!(rt; (cost(disk), size(disk)), (96, 48_128));
    Ok(())
}

/// One byte more has no block, one past the greatest size no place, and the same bytes again need none.
#[test]
fn full_volume_refuses_a_byte(rt: HostRuntime) -> Result<(), Fail> {
    let mut disk = fresh(rt.alloc())?;
    refuses_a_byte(&rt, &mut disk)
}

fn keeps_its_size<R: Abort + AllocGlobal>(rt: &R, disk: &mut GatheredBlocks) -> Result<(), Fail> {
    let past = put_on(rt.alloc(), disk, 1_082_201_088, &[1])?;
    assert_eq!(rt; past, Ended::Refused(Errno::EFBIG, 0));
    let over = put_on(rt.alloc(), disk, 1_082_201_087, &[1, 1])?;
    assert_eq!(rt; over, Ended::Refused(Errno::EFBIG, 0));
    Ok(())
}

/// No byte stands at the greatest size or past it.
#[test]
fn greatest_size_is_kept(rt: HostRuntime) -> Result<(), Fail> {
    let mut disk = fresh(rt.alloc())?;
    keeps_its_size(&rt, &mut disk)
}

fn gives_its_blocks_back<R: Abort + AllocGlobal>(
    rt: &R,
    disk: &mut GatheredBlocks,
) -> Result<(), Fail> {
    let bytes = vec![in rt.alloc(); 65; 48_128]?;
    let _ = put_on(rt.alloc(), disk, 0, &bytes)?;
    let _ = empty_on(rt.alloc(), disk)?;
    assert_eq!(rt; (cost(disk), free(disk), size(disk)), (1, 95, 0));
    let _ = put_on(rt.alloc(), disk, 1_082_201_087, &[1])?;
    assert_eq!(rt; (cost(disk), free(disk)), (5, 91));
    Ok(())
}

/// An emptied file gives all back, and its last byte needs three index blocks.
#[test]
fn emptied_file_gives_its_blocks_back(rt: HostRuntime) -> Result<(), Fail> {
    let mut disk = fresh(rt.alloc())?;
    gives_its_blocks_back(&rt, &mut disk)
}

fn has_one_byte<R: Abort + AllocGlobal>(rt: &R, disk: &mut GatheredBlocks) -> Result<(), Fail> {
    let _ = put_on(rt.alloc(), disk, 1_082_201_087, &[9])?;
    assert_eq!(rt; (cost(disk), size(disk)), (5, 1_082_201_088));
    assert_eq!(rt;
        read_on(rt.alloc(), disk, 1_082_201_084, 9)?.as_slice(),
        [0, 0, 0, 9].as_slice()
    );
    assert_eq!(rt;
        read_on(rt.alloc(), disk, 541_100_543, 3)?.as_slice(),
        [0; 3].as_slice()
    );
    assert_eq!(rt;
        read_on(rt.alloc(), disk, 1_082_201_088, 9)?
            .as_slice()
            .len(),
        0
    );
    let _ = empty_on(rt.alloc(), disk)?;
    assert_eq!(rt; (cost(disk), free(disk), size(disk)), (1, 95, 0));
    Ok(())
}

/// A file of the greatest size with one byte, its last: all before it reads as zeros, behind it is
/// nothing, and one block more than the file's four is the root's.
#[test]
fn greatest_file_has_one_byte(rt: HostRuntime) -> Result<(), Fail> {
    let mut disk = fresh(rt.alloc())?;
    has_one_byte(&rt, &mut disk)
}

fn is_asked_for_first<R: Abort + AllocGlobal>(
    rt: &R,
    disk: &mut GatheredBlocks,
) -> Result<(), Fail> {
    let bytes = vec![in rt.alloc(); 65; 48_128]?;
    let _ = put_on(rt.alloc(), disk, 0, &bytes)?;
    erase_on(rt.alloc(), disk)?;
    assert_eq!(rt; (cost(disk), free(disk), size(disk)), (1, 95, 0));
    Ok(())
}

/// An erased file gives all back, too, and each block of it that is wanted is asked for before one is
/// changed.
#[test]
fn erased_file_is_asked_for_first(rt: HostRuntime) -> Result<(), Fail> {
    let mut disk = fresh(rt.alloc())?;
    is_asked_for_first(&rt, &mut disk)
}

fn is_emptied_after_three_asks<R: Abort + AllocGlobal>(
    rt: &R,
    disk: &mut GatheredBlocks,
) -> Result<(), Fail> {
    let bytes = vec![in rt.alloc(); 65; 51_200]?;
    for chunk in 0..10 {
        let _ = put_on(rt.alloc(), disk, 51_200 * chunk, &bytes)?;
    }
    assert_eq!(rt; (cost(disk), free(disk), size(disk)), (1_010, 186, 512_000));
    assert_eq!(rt; empty_on(rt.alloc(), disk)?, Ended::Done(3));
    assert_eq!(rt; (cost(disk), free(disk), size(disk)), (1, 1_195, 0));
    Ok(())
}

/// A file of 1,000 parts, with 9 index blocks, is emptied once it has asked three times: for its inode; for block 1, its
/// index blocks and its first parts; and for the 7 index blocks below. Its blocks get the 21 lists that this takes among
/// these. All are free then, as many as before.
#[test]
fn long_file_is_emptied_after_three_asks(rt: HostRuntime) -> Result<(), Fail> {
    let size_of_volume = Size {
        blocks: 1_200,
        inodes: 16,
    };
    let mut disk = fresh_of(rt.alloc(), size_of_volume)?;
    is_emptied_after_three_asks(&rt, &mut disk)
}

fn keeps_its_count<R: Abort + AllocGlobal>(rt: &R, disk: &mut GatheredBlocks) -> Result<(), Fail> {
    let _ = put_on(rt.alloc(), disk, 0, &[65; 5000])?;
    let _ = disk.blocks.patch(1, 6, &[51, 0]);
    let before = disk.blocks.get(1).copied();
    let _ = empty_on(rt.alloc(), disk)?;
    assert_eq!(rt; disk.blocks.get(1).copied() == before, true);
    assert_eq!(rt; size(disk), 0);
    Ok(())
}

/// A list of the chain that counts more addresses than it has places for is on no volume, and stays.
#[test]
fn count_above_50_is_kept(rt: HostRuntime) -> Result<(), Fail> {
    let mut disk = fresh(rt.alloc())?;
    keeps_its_count(&rt, &mut disk)
}
