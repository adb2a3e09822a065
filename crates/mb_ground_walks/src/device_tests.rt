ghost use Rattle.std.specs.Prelude.{◌<◌};

use mb_edge::{
    Bytes, Calm, Crossing, Crossings, Disk, Failed, Fails, Hook, MemDisk, MemSink, MemSource, Sink,
    Source, SureSource, Word, read_whole, write_whole,
};
use mb_kinds::Kind;
use std::alloc::{AllocError, Global};
use std::process::Abort;
use std::test::Fail;

fn bytes(alloc: Global, text: &[u8]) -> Result<Bytes, AllocError> {
    Ok(Bytes::from_vec(text.to_vec(alloc)?))
}

fn call(alloc: Global, number: u64) -> Result<Fails, AllocError> {
    Ok(Fails::from_vec([number].to_vec(alloc)?))
}

// Whether so many bytes are read, and what they were read into is this then.
fn reads(source: &mut MemSource, into: &mut [u8; 3], count: usize, then: &[u8; 3]) -> bool {
    source.read(into) == Ok(count) && *into == *then
}

fn reads_fail(rt: &impl Abort, source: &mut MemSource) {
    let mut into = [0; 3];
    assert!(rt; reads(source, &mut into, 3, b"abc"));
    assert!(rt; source.read(&mut into) == Err(Failed));
    assert!(rt; reads(source, &mut into, 2, b"dec"));
    assert!(rt; source.read(&mut into) == Ok(0));
}

#[test]
fn a_read_that_fails_takes_nothing(rt: HostRuntime) -> Result<(), Fail> {
    let mut source = MemSource::new(bytes(rt.alloc(), b"abcde")?, call(rt.alloc(), 2)?);
    reads_fail(&rt, &mut source);
    Ok(())
}

fn takes(sink: &mut MemSink, bytes: &[u8]) -> bool {
    write_whole(sink, bytes).is_ok()
}

fn writes_fail(rt: &impl Abort, sink: &mut MemSink) {
    assert!(rt; takes(sink, b"ab"));
    assert!(rt; !takes(sink, b"x"));
    assert!(rt; takes(sink, b"cde"));
    assert!(rt; !takes(sink, b"f"), "the room is full");
    assert!(rt; sink.taken() == b"abcde".as_slice());
}

#[test]
fn a_write_that_fails_takes_nothing(rt: HostRuntime) -> Result<(), Fail> {
    let mut sink = MemSink::new(rt.alloc(), 5, call(rt.alloc(), 2)?)?;
    writes_fail(&rt, &mut sink);
    Ok(())
}

/// A disk of a block and a part of one, with room for 4, whose fourth read and second write fail.
fn growing(alloc: Global) -> Result<MemDisk, Fail> {
    let reads = call(alloc, 4)?;
    let writes = call(alloc, 2)?;
    let image = Bytes::from_vec(vec![in alloc; 7; 600]?);
    Ok(MemDisk::new(alloc, image, 4, Fails::new(alloc), reads, writes)?)
}

/// Whether the disk says that it has so many blocks.
fn has_blocks(disk: &mut MemDisk, count: u32) -> bool {
    disk.blocks() == Ok(count)
}

/// Whether a block is read, each byte of which is the same one.
fn holds(disk: &mut MemDisk, block: u32, byte: u8) -> bool {
    let mut into = [9; 512];
    disk.read(block, &mut into).is_ok() && into == [byte; 512]
}

/// Whether a block is written with one byte.
fn fills(disk: &mut MemDisk, block: u32, byte: u8) -> bool
    requires { block < 262144 }
{
    disk.write(block, &[byte; 512]).is_ok()
}

fn grows(rt: &impl Abort, disk: &mut MemDisk) {
    assert!(rt; has_blocks(disk, 1));
    assert!(rt; holds(disk, 1, 0), "a part of a block is no block");
    assert!(rt; fills(disk, 2, 5));
    assert!(rt; !fills(disk, 0, 6));
    assert!(rt; !fills(disk, 4, 6), "the room is full");
}

fn keeps(rt: &impl Abort, disk: &mut MemDisk) {
    assert!(rt; has_blocks(disk, 3));
    assert!(rt; holds(disk, 0, 7));
    assert!(rt; holds(disk, 1, 0));
    assert!(rt; disk.read(2, &mut [9; 512]) == Err(Failed));
    assert!(rt; holds(disk, 2, 5));
    assert!(rt; disk.bytes().len() == 1536);
}

#[test]
fn a_disk_grows_with_zeros_and_keeps_its_blocks_at_a_fault(rt: HostRuntime) -> Result<(), Fail> {
    let mut disk = growing(rt.alloc())?;
    grows(&rt, &mut disk);
    keeps(&rt, &mut disk);
    Ok(())
}

fn reads_so_many(alloc: Global, source: &mut SureSource) -> Result<usize, Fail> {
    let read = read_whole(alloc, source, 4999)?;
    Ok(read.len())
}

fn reads_one_more(alloc: Global, source: &mut SureSource) -> Result<bool, Fail> {
    let rest = read_whole(alloc, source, 100)?;
    Ok(rest.as_slice() == [3].as_slice())
}

fn is_read_whole(rt: &impl Abort, alloc: Global, source: &mut SureSource) -> Result<(), Fail> {
    let many = reads_so_many(alloc, source)?;
    assert_eq!(rt; many, 4999);
    let is_rest = reads_one_more(alloc, source)?;
    assert!(rt; is_rest);
    Ok(())
}

#[test]
fn a_source_longer_than_one_read_is_read_whole(rt: HostRuntime) -> Result<(), Fail> {
    let all = vec![in rt.alloc(); 3; 5000]?;
    let mut source = SureSource::new(Bytes::from_vec(all));
    is_read_whole(&rt, rt.alloc(), &mut source)
}

#[test]
fn a_crossing_is_counted_by_its_kind(rt: HostRuntime) -> Result<(), Fail> {
    let mut crossings = Crossings {
        caller: 1,
        ordinal: 4,
        counts: [0, 2, 0, 0, 0, u32::MAX],
    };
    assert!(rt; crossings.next(Kind::Gather).nth == 3);
    assert!(rt; crossings.next(Kind::Gather).nth == 4);
    assert!(rt; crossings.next(Kind::Enter).nth == 1);
    assert!(rt; crossings.next(Kind::Replay).nth == u32::MAX);
    assert!(rt; crossings.next(Kind::Leave).nth == 1);
    Ok(())
}

#[test]
fn a_calm_hook_lets_every_call_go_on(rt: HostRuntime) -> Result<(), Fail> {
    let mut hook = Calm;
    assert!(rt; hook.damage().is_none());
    for nth in [1, 2, u32::MAX] {
        let at = Crossing {
            caller: 0,
            ordinal: 1,
            kind: Kind::Finish,
            nth,
        };
        assert_eq!(rt; hook.cross(&at), Word::Go);
        assert!(rt; hook.damage().is_none());
    }
    Ok(())
}
