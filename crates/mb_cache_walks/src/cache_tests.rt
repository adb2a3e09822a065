use mb_cache::{Cache, Flushed, ReadFault};
use mb_edge::{Bytes, Damage, Fails, MemDisk, NoMemory, Stroke};
use mb_iface::Changes;
use std::alloc::Global;
use std::process::Abort;
use std::test::Fail;

// A disk of four blocks of ones, with room for twelve; its calls with these numbers fail.
fn disk(alloc: Global, reads: &[u64], writes: &[u64]) -> Result<MemDisk, Fail> {
    let image = Bytes::from_vec(vec![in alloc; 1; 2048]?);
    Ok(MemDisk::new(
        alloc,
        image,
        12,
        Fails::new(alloc),
        Fails::from_vec(reads.to_vec(alloc)?),
        Fails::from_vec(writes.to_vec(alloc)?),
    )?)
}

fn over(alloc: Global, disk: MemDisk) -> Result<Cache<MemDisk>, Fail> {
    match Cache::new(alloc, disk) {
        Ok(cache) => Ok(cache),
        Err(_disk) => Err(NoMemory.into()),
    }
}

// A cache over that disk; of its writes the one with that number fails, none where it is 0.
fn over_disk(alloc: Global, failing: u64) -> Result<Cache<MemDisk>, Fail> {
    over(alloc, disk(alloc, &[], &[failing])?)
}

// Installs two blocks, each filled with one byte.
fn install(
    alloc: Global,
    cache: &mut Cache<MemDisk>,
    first: (u16, u8),
    second: (u16, u8),
) -> Result<(), Fail> {
    let mut changes = Changes::new(alloc);
    changes.put(u32::from(first.0), &[first.1; 512])?;
    changes.put(u32::from(second.0), &[second.1; 512])?;
    cache.reserve(changes.len())?;
    cache.install(&changes);
    Ok(())
}

// The bytes of a block.
fn read(cache: &mut Cache<MemDisk>, block: u32) -> Result<[u8; 512], ReadFault> {
    let mut bytes = [0; 512];
    cache.read(block, &mut bytes)?;
    Ok(bytes)
}

// Whether a block is filled with one byte.
fn holds(cache: &mut Cache<MemDisk>, block: u32, byte: u8) -> bool {
    read(cache, block) == Ok([byte; 512])
}

// Whether the disk fails at the read of a block.
fn fails(cache: &mut Cache<MemDisk>, block: u32) -> bool {
    read(cache, block) == Err(ReadFault::Device)
}

// Whether the disk has so many bytes.
fn has_size(disk: &MemDisk, size: usize) -> bool {
    disk.bytes().len() == size
}

// Whether a byte of the disk is there.
fn has_byte(disk: &MemDisk, at: usize, byte: u8) -> bool {
    disk.bytes().get(at) == Some(&byte)
}

fn layers(rt: &impl Abort, alloc: Global, cache: &mut Cache<MemDisk>) -> Result<(), Fail> {
    assert!(rt; holds(cache, 2, 1));
    assert!(rt; holds(cache, 9, 0));
    install(alloc, cache, (2, 22), (9, 99))?;
    assert!(rt; holds(cache, 2, 22));
    assert!(rt; holds(cache, 9, 99));
    assert!(rt; cache.flush_one() == Flushed::Clean);
    cache.seal();
    install(alloc, cache, (9, 98), (3, 33))?;
    cache.forget_clean();
    assert!(rt; holds(cache, 2, 22));
    assert!(rt; holds(cache, 3, 33));
    assert!(rt; holds(cache, 9, 98));
    for (block, stamp) in [(2, 1), (3, 1), (9, 2), (4, 0)] {
        assert_eq!(rt; cache.stamp(block), stamp, "of block {block}");
    }
    cache.drop_current();
    assert!(rt; holds(cache, 3, 1));
    assert!(rt; holds(cache, 9, 99));
    assert_eq!(rt; cache.stamp(9), 2);
    assert!(rt; cache.flush_one() == Flushed::One);
    assert!(rt; cache.flush_one() == Flushed::One);
    assert!(rt; cache.flush_one() == Flushed::Clean);
    assert!(rt; holds(cache, 9, 99));
    Ok(())
}

#[test]
fn a_block_is_seen_through_its_layers(rt: HostRuntime) -> Result<(), Fail> {
    let mut cache = over_disk(rt.alloc(), 0)?;
    let seen = layers(&rt, rt.alloc(), &mut cache);
    let disk = cache.into_disk();
    seen?;
    assert!(rt; has_size(&disk, 10 * 512) && has_byte(&disk, 1024, 22));
    Ok(())
}

fn failing(rt: &impl Abort, alloc: Global, cache: &mut Cache<MemDisk>) -> Result<(), Fail> {
    install(alloc, cache, (1, 11), (2, 22))?;
    cache.seal();
    assert!(rt; cache.flush_one() == Flushed::One);
    assert!(rt; cache.flush_one() == Flushed::Device);
    assert!(rt; holds(cache, 1, 11));
    assert!(rt; holds(cache, 2, 22));
    assert!(rt; cache.flush_one() == Flushed::One);
    assert!(rt; cache.flush_one() == Flushed::Clean);
    Ok(())
}

#[test]
fn a_page_whose_write_back_failed_waits_on(rt: HostRuntime) -> Result<(), Fail> {
    let mut cache = over_disk(rt.alloc(), 2)?;
    let seen = failing(&rt, rt.alloc(), &mut cache);
    let disk = cache.into_disk();
    seen?;
    assert!(rt; has_byte(&disk, 512, 11) && has_byte(&disk, 1024, 22));
    Ok(())
}

fn strokes(rt: &impl Abort, alloc: Global, cache: &mut Cache<MemDisk>) -> Result<(), Fail> {
    install(alloc, cache, (1, 11), (2, 22))?;
    cache.seal();
    install(alloc, cache, (2, 23), (3, 33))?;
    let mut damage = Damage::new(alloc);
    damage.push(Stroke::Wipe(5))?;
    damage.push(Stroke::Page {
        nth: 1,
        bytes: [6; 512],
    })?;
    damage.push(Stroke::Page {
        nth: 2,
        bytes: [7; 512],
    })?;
    damage.push(Stroke::Count { ino: 3, count: 0 })?;
    cache.damage(&damage);
    assert!(rt; holds(cache, 1, 11));
    assert!(rt; holds(cache, 2, 5));
    assert!(rt; holds(cache, 3, 6));
    cache.drop_current();
    assert!(rt; holds(cache, 2, 22));
    Ok(())
}

#[test]
fn a_fault_changes_current_pages_alone(rt: HostRuntime) -> Result<(), Fail> {
    let mut cache = over_disk(rt.alloc(), 0)?;
    let seen = strokes(&rt, rt.alloc(), &mut cache);
    let _disk = cache.into_disk();
    seen
}

fn pinned(cache: &mut Cache<MemDisk>) -> Result<(), NoMemory> {
    cache.reserve_pins(1)?;
    cache.pin(7)?;
    cache.pin(7)?;
    cache.unpin(7);
    Ok(())
}

#[test]
fn a_block_is_pinned_more_than_once(rt: HostRuntime) -> Result<(), Fail> {
    let mut cache = over_disk(rt.alloc(), 0)?;
    let done = pinned(&mut cache);
    let _disk = cache.into_disk();
    Ok(done?)
}

// A block is read once, also where the second read fails; it is read again once the clean pages are forgotten.
fn read_once(rt: &impl Abort, cache: &mut Cache<MemDisk>) {
    assert!(rt; holds(cache, 2, 1));
    assert!(rt; holds(cache, 2, 1));
    assert!(rt; fails(cache, 3));
    assert!(rt; holds(cache, 3, 1));
    assert!(rt; holds(cache, 2, 1));
    cache.forget_clean();
    assert!(rt; fails(cache, 2));
}

#[test]
fn a_block_is_read_once(rt: HostRuntime) -> Result<(), Fail> {
    let mut cache = over(rt.alloc(), disk(rt.alloc(), &[2, 4], &[])?)?;
    read_once(&rt, &mut cache);
    let _disk = cache.into_disk();
    Ok(())
}

// Of 1,025 blocks that are read, each once, the first one loses its clean page, and the others keep theirs; the disk fails from
// then on.
fn read_many(rt: &impl Abort, cache: &mut Cache<MemDisk>) {
    for block in 0..1025 {
        assert!(rt; read(cache, block).is_ok());
    }
    for block in 1..1025 {
        assert!(rt; read(cache, block).is_ok());
    }
    assert!(rt; fails(cache, 0));
}

#[test]
fn clean_pages_are_1024(rt: HostRuntime) -> Result<(), Fail> {
    let mut cache = over(rt.alloc(), disk(rt.alloc(), &[1026], &[])?)?;
    read_many(&rt, &mut cache);
    let _disk = cache.into_disk();
    Ok(())
}

// Of two blocks that are read and changed, the first one's write fails. Block 2, whose write was done, is a clean page then, and
// block 1 is one again as soon as its page was written: the disk is read no third time.
fn written_back(rt: &impl Abort, alloc: Global, cache: &mut Cache<MemDisk>) -> Result<(), Fail> {
    assert!(rt; holds(cache, 1, 1));
    assert!(rt; holds(cache, 2, 1));
    install(alloc, cache, (2, 22), (1, 11))?;
    cache.seal();
    assert!(rt; cache.flush_one() == Flushed::Device);
    assert!(rt; holds(cache, 1, 11));
    assert!(rt; cache.flush_one() == Flushed::One);
    assert!(rt; cache.flush_one() == Flushed::One);
    assert!(rt; cache.flush_one() == Flushed::Clean);
    assert!(rt; holds(cache, 1, 11));
    assert!(rt; holds(cache, 2, 22));
    assert!(rt; fails(cache, 3));
    Ok(())
}

#[test]
fn a_page_that_was_written_is_clean(rt: HostRuntime) -> Result<(), Fail> {
    let mut cache = over(rt.alloc(), disk(rt.alloc(), &[3], &[1])?)?;
    let seen = written_back(&rt, rt.alloc(), &mut cache);
    let _disk = cache.into_disk();
    seen
}
