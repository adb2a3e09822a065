use crate::example_files::{HELLO_JOB, HELLO_TEXT};
use crate::trials::{
    End, NOTHING_FAILS, checked, fresh, is_fresh, keeps, leaves, opened, printed, prints, run,
    sure_source, tells, words_alone,
};
use crate::volumes::{fresh_volume, hello_volume, put, volume_with};
use mb_edge::{Bytes, Fails, MemSink, SureDisk, SureSource};
use mb_program::{Finish, membrane_alone};
use std::alloc::{AllocError, Global};
use std::process::Abort;
use std::test::Fail;

/// A job that makes a file of two bytes.
pub const HI_JOB: &str = "calls = ['a creat /f 644', 'a text 3 hi', 'a close 3']";

/// What that job prints.
pub const HI_TEXT: &str = "\
1 a creat /f 644 = 3
2 a text 3 hi = 2
3 a close 3 = 0
4 a exit = 0
end 4 faults 0 seal 4
";

fn example_keeps<R: Abort + AllocGlobal>(rt: &R, volume: &[u8]) -> Result<(), Fail> {
    let words = ["run", "v"];
    keeps(rt, &words, volume, HELLO_JOB, NOTHING_FAILS, 0, HELLO_TEXT)?;
    let lines = "1 a sync = 0\n2 a exit = 0\nend 2 faults 0 seal 2\n";
    let copy = volume.to_vec(rt.alloc())?;
    tells(
        rt,
        &words,
        copy,
        "calls = ['a sync']",
        NOTHING_FAILS,
        0,
        lines,
    )
}

#[test]
fn read_hello(rt: HostRuntime) -> Result<(), Fail> {
    let volume = hello_volume(rt.alloc())?;
    example_keeps(&rt, &volume)
}

#[test]
fn write_hi(rt: HostRuntime) -> Result<(), Fail> {
    leaves(&rt, HI_JOB, 0, HI_TEXT, "sound nodes 2 held 2 free 94\n")
}

fn sure_disk(alloc: Global) -> Result<SureDisk, Fail> {
    let image = fresh(alloc)?;
    if image.len() / 512 > 262_144 {
        return Err("the image has more blocks than the disk".into());
    }
    Ok(SureDisk::new(alloc, Bytes::from_vec(image))?)
}

// The status of a run over a disk that never fails.
fn sure_status(
    alloc: Global,
    job: &mut SureSource,
    disk: SureDisk,
    out: &mut MemSink,
) -> Result<u8, Fail> {
    let words = words_alone(alloc, &["run", "v"])?;
    let Finish { status, held } = membrane_alone(alloc, &words, job, disk, out);
    let _disk = held.into_disk();
    Ok(status)
}

fn writes_hi<R: Abort + AllocGlobal>(
    rt: &R,
    job: &mut SureSource,
    out: &mut MemSink,
) -> Result<(), Fail> {
    let status = sure_status(rt.alloc(), job, sure_disk(rt.alloc())?, out)?;
    assert_eq!(rt; str::from_utf8(out.taken())?, HI_TEXT);
    assert_eq!(rt; status, 0);
    Ok(())
}

// The devices that never fail.
#[test]
fn write_hi_over_a_sure_disk(rt: HostRuntime) -> Result<(), Fail> {
    let mut job = sure_source(rt.alloc(), HI_JOB)?;
    let mut out = MemSink::new(rt.alloc(), 4096, Fails::new(rt.alloc()))?;
    writes_hi(&rt, &mut job, &mut out)
}

#[test]
fn empty_job(rt: HostRuntime) -> Result<(), Fail> {
    let image = fresh(rt.alloc())?;
    keeps(
        &rt,
        &["run", "v"],
        &image,
        "calls = []",
        NOTHING_FAILS,
        0,
        "end 0 faults 0 seal 0\n",
    )
}

#[test]
fn second_descriptor(rt: HostRuntime) -> Result<(), Fail> {
    let job = "\
calls = ['a creat /f 644', 'a text 3 hi', 'a open /f r', 'a read 4 9', 'a read 4 9', 'a lseek 4 1000 0', 'a read 4 9']
";
    let lines = "\
1 a creat /f 644 = 3
2 a text 3 hi = 2
3 a open /f r = 4
4 a read 4 9 = 2 6869
5 a read 4 9 = 0
6 a lseek 4 1000 0 = 1000
7 a read 4 9 = 0
8 a exit = 0
end 8 faults 0 seal 8
";
    prints(&rt, job, 0, lines)
}

#[test]
fn largest_offset(rt: HostRuntime) -> Result<(), Fail> {
    let job = "\
calls = ['a creat /f 644', 'a lseek 3 1082201087 0', 'a text 3 x', 'a text 3 y', 'a stat /f']
";
    let lines = "\
1 a creat /f 644 = 3
2 a lseek 3 1082201087 0 = 1082201087
3 a text 3 x = 1
4 a text 3 y = EFBIG
5 a stat /f = ino 3 mode 100644 nlink 1 uid 0 gid 0 size 1082201088 atime 1 mtime 3 ctime 3
6 a exit = 0
end 6 faults 0 seal 6
";
    leaves(&rt, job, 0, lines, "sound nodes 2 held 5 free 91\n")
}

#[test]
fn full_disk(rt: HostRuntime) -> Result<(), Fail> {
    let job = "\
calls = ['a creat /f 644', 'a fill 3 48128 65', 'a creat /g 644', 'a fill 4 48128 66',
    'a close 3', 'a unlink /f', 'a fill 4 48128 66']
";
    let lines = "\
1 a creat /f 644 = 3
2 a fill 3 48128 65 = 48128
3 a creat /g 644 = 4
4 a fill 4 48128 66 = ENOSPC
5 a close 3 = 0
6 a unlink /f = 0
7 a fill 4 48128 66 = 48128
8 a exit = 0
end 8 faults 0 seal 8
";
    leaves(&rt, job, 0, lines, "sound nodes 2 held 96 free 0\n")
}

#[test]
fn directories(rt: HostRuntime) -> Result<(), Fail> {
    let job = "\
calls = ['a creat /abcdefghijklmno 644', 'a stat /abcdefghijklmn', 'a mkdir /d 755', 'a creat /d/k 644',
    'a rmdir /d', 'a mkdir /e 755', 'a chdir /e', 'a rmdir /e', 'a rmdir /abcdefghijklmn']
";
    let lines = "\
1 a creat /abcdefghijklmno 644 = 3
2 a stat /abcdefghijklmn = ino 3 mode 100644 nlink 1 uid 0 gid 0 size 0 atime 1 mtime 1 ctime 1
3 a mkdir /d 755 = 0
4 a creat /d/k 644 = 4
5 a rmdir /d = EEXIST
6 a mkdir /e 755 = 0
7 a chdir /e = 0
8 a rmdir /e = EBUSY
9 a rmdir /abcdefghijklmn = ENOTDIR
10 a exit = 0
end 10 faults 0 seal 10
";
    leaves(&rt, job, 0, lines, "sound nodes 5 held 3 free 93\n")
}

fn is_fresh_volume(alloc: Global, image: &[u8]) -> Result<bool, AllocError> {
    let fresh = fresh_volume(alloc)?;
    Ok(fresh.as_slice() == image)
}

fn has_fresh_bytes<R: Abort + AllocGlobal>(rt: &R, image: &[u8]) -> Result<(), Fail> {
    assert_eq!(rt; image.len(), 51200);
    assert!(rt;
        image[512..].starts_with(b"\x04\0\0\0\x64\0\x2e\0\0\0\x32\0\0\0\x31\0"),
        "s_isize, s_fsize, s_nfree and the first two addresses of the free list"
    );
    assert!(rt;
        image[1088..].starts_with(b"\xff\x41\x02\0\0\0\0\0\0\0\x20\0\0\x04\0"),
        "the inode of the root, as far as its first address"
    );
    assert!(rt; is_fresh_volume(rt.alloc(), image)?);
    checked(rt, image, 0, "sound nodes 1 held 1 free 95\n")
}

fn is_made_fresh<R: Abort + AllocGlobal>(rt: &R, end: &End) -> Result<(), Fail> {
    printed(rt, end, 0, "made 100 blocks 16 inodes\n")?;
    has_fresh_bytes(rt, &end.image)
}

#[test]
fn fresh_bytes(rt: HostRuntime) -> Result<(), Fail> {
    let words = ["mkfs", "v", "100", "16"];
    let end = run(rt.alloc(), &words, Vec::new(rt.alloc()), "", NOTHING_FAILS)?;
    is_made_fresh(&rt, &end)
}

// The image that is made over the volume of the example.
fn made_anew(alloc: Global) -> Result<Vec<u8>, Fail> {
    let words = ["mkfs", "v", "100", "16"];
    let end = run(alloc, &words, hello_volume(alloc)?, "", NOTHING_FAILS)?;
    Ok(end.image)
}

// A volume is made over another one.
#[test]
fn nothing_is_left_of_the_volume_before(rt: HostRuntime) -> Result<(), Fail> {
    let image = made_anew(rt.alloc())?;
    assert!(rt; is_fresh(rt.alloc(), &image)?);
    Ok(())
}

// The volume of the example whose file has no name: its slot's number and its link count are 0.
fn nameless_volume(alloc: Global) -> Result<Vec<u8>, AllocError> {
    let mut image = hello_volume(alloc)?;
    put(&mut image, 2080, &[0, 0]);
    put(&mut image, 1154, &[0, 0]);
    Ok(image)
}

// The file of the example is open by no caller and has no name.
#[test]
fn nameless_swept(rt: HostRuntime) -> Result<(), Fail> {
    let image = nameless_volume(rt.alloc())?;
    let before = "sound nodes 2 held 2 free 94\n";
    let after = "sound nodes 1 held 1 free 95\n";
    opened(&rt, &image, before, after)
}

// A file of ten parts: each is filled with its number and 5 more, but part 3 is a hole.
fn ten_parts(alloc: Global) -> Result<Vec<u8>, AllocError> {
    let mut parts = [None; 10];
    for (number, part) in (5..15).zip(&mut parts) {
        *part = if number == 8 {
            None
        } else {
            Some([number; 512])
        };
    }
    volume_with(alloc, 10 * 512, &parts)
}

fn push_hex(out: &mut String, digits: &str, count: usize) -> Result<(), AllocError> {
    for _ in 0..count {
        out.push_str(digits)?;
    }
    Ok(())
}

fn push_pieces(lines: &mut String) -> Result<(), AllocError> {
    lines.push_str("1 a open /hello r = 3\n2 a read 3 1 = 1 05\n3 a read 3 511 = 511 ")?;
    push_hex(lines, "05", 511)?;
    lines.push_str("\n4 a read 3 512 = 512 ")?;
    push_hex(lines, "06", 512)?;
    lines.push_str("\n5 a read 3 513 = 513 ")?;
    push_hex(lines, "07", 512)?;
    lines.push_str("00\n6 a read 3 65535 = 3583 ")?;
    push_hex(lines, "00", 511)?;
    for digits in ["09", "0a", "0b", "0c", "0d", "0e"] {
        push_hex(lines, digits, 512)?;
    }
    lines.push_str("\n7 a read 3 1 = 0\n8 a exit = 0\nend 8 faults 0 seal 8\n")
}

fn pieces(alloc: Global) -> Result<String, AllocError> {
    let mut lines = String::new(alloc);
    push_pieces(&mut lines)?;
    Ok(lines)
}

#[test]
fn a_file_of_ten_parts_is_read_in_pieces(rt: HostRuntime) -> Result<(), Fail> {
    let job = "\
calls = ['a open /hello r', 'a read 3 1', 'a read 3 511', 'a read 3 512', 'a read 3 513', 'a read 3 65535', 'a read 3 1']
";
    let lines = pieces(rt.alloc())?;
    let words = ["run", "v"];
    let volume = ten_parts(rt.alloc())?;
    tells(&rt, &words, volume, job, NOTHING_FAILS, 0, lines.as_str())
}
