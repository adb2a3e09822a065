ghost use Rattle.std.specs.Prelude.{◌<◌};

use mb_edge::{Disk, Failed, Sink, Source};
use mb_host::{FileDisk, InSource, OutSink, Word8};
use std::process::Abort;
use std::test::Fail;
use std::{fs, io};

fn named<R: AllocGlobal>(rt: &R, path: &str) -> Result<Word8, Fail> {
    Ok(Word8::from_vec(path.as_bytes().to_vec(rt.alloc())?))
}

// A file of so many bytes, each of which is 7.
fn put_file(rt: &HostRuntime, path: &str, size: usize) -> Result<(), Fail> {
    let bytes = vec![in rt.alloc(); 7; size]?;
    fs::write(rt, path, bytes.as_slice())?;
    Ok(())
}

// Whether the disk says that it has so many blocks.
fn has_blocks<D: Disk>(disk: &mut D, count: u32) -> bool {
    disk.blocks() == Ok(count)
}

// Whether a block is read, each byte of which is the same one.
fn holds<D: Disk>(disk: &mut D, block: u32, byte: u8) -> bool {
    let mut into = [9; 512];
    disk.read(block, &mut into).is_ok() && into == [byte; 512]
}

// Whether a block is written with one byte.
fn fills<D: Disk>(disk: &mut D, block: u32, byte: u8) -> bool
    requires { block < 262144 }
{
    disk.write(block, &[byte; 512]).is_ok()
}

fn reads_and_grows<D: Disk>(rt: &impl Abort, disk: &mut D) {
    assert!(rt; has_blocks(disk, 1) && holds(disk, 0, 7));
    assert!(rt; holds(disk, 1, 0), "a part of a block is no block");
    assert!(rt; fills(disk, 2, 5));
    assert!(rt; has_blocks(disk, 3));
    assert!(rt; holds(disk, 1, 0), "the part of a block is cut off");
    assert!(rt; holds(disk, 2, 5));
}

fn is_a_disk<D: Disk + Drop>(rt: &impl Abort, mut disk: D) {
    reads_and_grows(rt, &mut disk);
}

#[test]
fn a_file_is_a_disk_of_its_whole_blocks(rt: HostRuntime) -> Result<(), Fail> {
    let path = "file_disk_test";
    put_file(&rt, path, 600)?;
    let disk = FileDisk::new(&rt, named(&rt, path)?, false);
    is_a_disk(&rt, disk);
    fs::remove_file(&rt, path)?;
    Ok(())
}

#[test]
fn a_file_that_is_not_there_is_a_fault(rt: HostRuntime) -> Result<(), Fail> {
    let mut disk = FileDisk::new(&rt, named(&rt, "")?, false);
    assert_eq!(rt; disk.blocks(), Err(Failed));
    Ok(())
}

fn is_empty_and_grows<D: Disk>(rt: &impl Abort, disk: &mut D) {
    assert!(rt;
        has_blocks(disk, 0),
        "the file is emptied at the first call"
    );
    assert!(rt; fills(disk, 0, 5));
    assert!(rt; has_blocks(disk, 1));
}

fn is_emptied<D: Disk + Drop>(rt: &impl Abort, mut disk: D) {
    is_empty_and_grows(rt, &mut disk);
}

#[test]
fn a_file_is_made_or_emptied(rt: HostRuntime) -> Result<(), Fail> {
    let path = "made_disk_test";
    put_file(&rt, path, 2048)?;
    let disk = FileDisk::new(&rt, named(&rt, path)?, true);
    is_emptied(&rt, disk);
    fs::remove_file(&rt, path)?;
    Ok(())
}

#[test]
fn a_reader_is_a_source_to_its_end(rt: HostRuntime) -> Result<(), Fail> {
    let mut source = InSource::new(b"abc".as_slice());
    let mut into = [0; 2];
    assert!(rt; source.read(&mut into) == Ok(2));
    assert!(rt; into == *b"ab");
    assert!(rt; source.read(&mut into) == Ok(1));
    assert!(rt; source.read(&mut into) == Ok(0));
    Ok(())
}

#[test]
fn a_writer_is_a_sink(rt: HostRuntime) -> Result<(), Fail> {
    let mut sink = OutSink::new(Vec::new(rt.alloc()));
    assert_eq!(rt; sink.write(b"abc"), Ok(3));
    assert_eq!(rt; sink.write(b""), Ok(0));
    Ok(())
}
