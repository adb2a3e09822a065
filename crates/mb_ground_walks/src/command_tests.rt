use mb_commands::{Command, Made, command_of, image_name, make_volume, refused_line, sound_line};
use mb_edge::{Bytes, Fails, MemDisk};
use mb_host::{Word8, Words};
use std::alloc::{AllocError, Global};
use std::process::Abort;
use std::test::Fail;

fn words_of(alloc: Global, words: &[&str]) -> Result<Words, AllocError> {
    let mut list = Vec::new(alloc);
    for word in words {
        list.push(Word8::from_vec(word.as_bytes().to_vec(alloc)?))?;
    }
    Ok(Words::from_vec(list))
}

/// Words, and the command that they are.
type Row<'a> = (&'a [&'a str], Option<Command>);

fn are_read<R: Abort + AllocGlobal>(
    rt: &R,
    words: &[&str],
    wanted: Option<Command>,
) -> Result<(), Fail> {
    let list = words_of(rt.alloc(), words)?;
    assert_eq!(rt; command_of(&list), wanted, "at {words:?}");
    Ok(())
}

fn each_is_read<R: Abort + AllocGlobal>(rt: &R, table: &[Row<'_>]) -> Result<(), Fail> {
    for (words, wanted) in table {
        are_read(rt, words, *wanted)?;
    }
    Ok(())
}

fn image_is_named<R: Abort + AllocGlobal>(rt: &R) -> Result<(), Fail> {
    let list = words_of(rt.alloc(), &["run", "--threads", "v"])?;
    assert!(rt; image_name(&list) == b"v".as_slice());
    Ok(())
}

#[test]
fn words_are_commands_or_none(rt: HostRuntime) -> Result<(), Fail> {
    let run = Some(Command::Run { threads: false });
    let threads = Some(Command::Run { threads: true });
    let most = Some(Command::Mkfs {
        blocks: 4294967295,
        inodes: 0,
    });
    let soak = Some(Command::Soak {
        number: 1,
        calls: 32768,
        faults: 255,
    });
    let table = [
        (["run", "v"].as_slice(), run),
        (["run", "v", "--threads"].as_slice(), threads),
        (["run", "--threads", "v"].as_slice(), threads),
        (["run", "--threads"].as_slice(), None),
        (["run", "--threads", "--threads"].as_slice(), None),
        (["run", "-v"].as_slice(), None),
        (["run", ""].as_slice(), None),
        (["run"].as_slice(), None),
        (["run", "v", "w"].as_slice(), None),
        (["check", "v"].as_slice(), Some(Command::Check)),
        (["check", "v", "--threads"].as_slice(), None),
        (["mkfs", "v", "4294967295", "0"].as_slice(), most),
        (["mkfs", "v", "4294967296", "8"].as_slice(), None),
        (["mkfs", "v", "+100", "16"].as_slice(), None),
        (["mkfs", "v", "0100", "16"].as_slice(), None),
        (["mkfs", "v", "100"].as_slice(), None),
        (["soak", "v", "1", "32768", "255"].as_slice(), soak),
        (["soak", "v", "1", "0", "0"].as_slice(), None),
        (["soak", "v", "1", "32769", "0"].as_slice(), None),
        (["soak", "v", "1", "1", "256"].as_slice(), None),
        (["make", "v"].as_slice(), None),
        ([].as_slice(), None),
    ];
    each_is_read(&rt, &table)?;
    image_is_named(&rt)
}

/// An empty disk with room for 100 blocks.
fn empty_disk(alloc: Global) -> Result<MemDisk, Fail> {
    let empty = Bytes::from_vec(Vec::new(alloc));
    let none = || Fails::from_vec(Vec::new(alloc));
    match MemDisk::new(alloc, empty, 100, none(), none(), none()) {
        Ok(disk) => Ok(disk),
        Err(_) => Err(Fail::from("no memory")),
    }
}

fn is_made(rt: &impl Abort, alloc: Global, disk: &mut MemDisk) -> Result<(), Fail> {
    let Made::Line(line) = make_volume(alloc, disk, 100, 16) else {
        return Err(Fail::from("no volume was made"));
    };
    assert_eq!(rt; line.as_slice(), b"made 100 blocks 16 inodes\n".as_slice());
    Ok(())
}

fn is_made_whole(rt: &impl Abort, alloc: Global, disk: &mut MemDisk) -> Result<(), Fail> {
    is_made(rt, alloc, disk)?;
    assert!(rt; disk.bytes().len() == 51200);
    Ok(())
}

#[test]
fn a_volume_is_made_with_its_line(rt: HostRuntime) -> Result<(), Fail> {
    let mut disk = empty_disk(rt.alloc())?;
    is_made_whole(&rt, rt.alloc(), &mut disk)
}

fn sound_line_is_printed<R: Abort + AllocGlobal>(rt: &R) -> Result<(), Fail> {
    let sound = sound_line(rt.alloc(), 1, 1, 95)?;
    assert_eq!(rt;
        sound.as_slice(),
        b"sound nodes 1 held 1 free 95\n".as_slice()
    );
    Ok(())
}

fn refused_line_is_printed<R: Abort + AllocGlobal>(rt: &R) -> Result<(), Fail> {
    let refused = refused_line(rt.alloc(), 1, 2)?;
    assert_eq!(rt;
        refused.as_slice(),
        b"volume refused: block 1 rule 2\n".as_slice()
    );
    Ok(())
}

#[test]
fn lines_are_printed(rt: HostRuntime) -> Result<(), Fail> {
    sound_line_is_printed(&rt)?;
    refused_line_is_printed(&rt)
}
