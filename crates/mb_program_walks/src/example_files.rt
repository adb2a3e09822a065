//! The texts of the files in `examples`, for the tests: they know the files by their checksums.
use crate::volumes::{changed_volume, hello_volume};
use std::process::Abort;
use std::test::Fail;

/// The text of `examples/hello/job.toml`.
pub const HELLO_JOB: &str = "\
calls = [
    \"a open /hello r\",
    \"a read 3 9\",
    \"a read 3 9\",
    \"a open /nope r\",
    \"a close 3\",
]
";

/// What that job prints.
pub const HELLO_TEXT: &str = "\
1 a open /hello r = 3
2 a read 3 9 = 5 68656c6c6f
3 a read 3 9 = 0
4 a open /nope r = ENOENT
5 a close 3 = 0
6 a exit = 0
end 6 faults 0 seal 6
";

/// The text of `examples/hello/wiped.toml`.
pub const WIPED_JOB: &str = "\
calls = [\"a open /hello r\", \"a chmod /hello 600\", \"a chmod /hello 640\", \"a read 3 9\"]
faults = [\"3 finish 0 1 wipe 255\"]
";

/// What that job prints.
pub const WIPED_TEXT: &str = "\
1 a open /hello r = 3
2 a chmod /hello 600 = 0
3 a chmod /hello 640 = 0
4 a read 3 9 = 5 68656c6c6f
5 a exit = 0
end 5 faults 1 seal 5
";

/// The text of `examples/two-callers/job.toml`.
pub const TWO_CALLERS_JOB: &str = "\
# Two callers write below one directory, step by step as the order says, and four faults strike: each wipes what the
# file system has in memory. The calls are numbered from 1, in the order of this list.
callers = [\"a 0 0\", \"b 3 3\"]
calls = [
    \"a mkdir /log 777\",
    \"a creat /log/a 644\",
    \"b creat /log/b 644\",
    \"a text 3 from a\",
    \"b text 3 from b\",
    \"a open /log/b r\",
    \"a read 4 99\",
    \"b stat /log/a\",
    \"a link /log/a /first\",
    \"b unlink /log/b\",
    \"a lseek 4 0 0\",
    \"a read 4 99\",
]

# a makes the directory, then each of the two makes a file: b is struck before it is done. After the order the calls that
# are not answered are run in the order of the list.
order = \"Aaa AB ba\"
faults = [
    \"3 finish 0 1 wipe 255\",
    \"5 gather 0 1 wipe 0 count 4 7\",
    \"6 leave 0 1 wipe 170\",
    \"12 enter 0 1 wipe 85\",
]
";

/// What that job prints.
pub const TWO_CALLERS_TEXT: &str = "\
1 a mkdir /log 777 = 0
2 a creat /log/a 644 = 3
3 b creat /log/b 644 = 3
4 a text 3 from a = 6
5 b text 3 from b = 6
6 a open /log/b r = 4
7 a read 4 99 = 6 66726f6d2062
8 b stat /log/a = ino 4 mode 100644 nlink 1 uid 0 gid 0 size 6 atime 2 mtime 4 ctime 4
9 a link /log/a /first = 0
10 b unlink /log/b = 0
11 a lseek 4 0 0 = 0
12 a read 4 99 = 6 66726f6d2062
13 a exit = 0
14 b exit = 0
end 14 faults 4 seal 14
";

/// What is printed of the volume that it leaves.
pub const TWO_CALLERS_SOUND: &str = "sound nodes 3 held 3 free 93\n";

/// The text of `examples/threads/job.toml`.
pub const THREADS_JOB: &str = "\
# Four callers, each in a thread of its own, make a directory and a file there, read it, and give it a second name in the
# root, where all four write. Four faults strike, each another caller's call; each wipes what the file system has in memory.
# The calls are numbered from 1, in the order of this list.
callers = [\"a 0 0\", \"b 3 3\", \"c 4 4\", \"d 5 5\"]
calls = [
    \"a mkdir /a 755\", \"b mkdir /b 755\", \"c mkdir /c 755\", \"d mkdir /d 755\",
    \"a creat /a/one 644\", \"b creat /b/one 644\", \"c creat /c/one 644\", \"d creat /d/one 644\",
    \"a text 3 alpha\", \"b text 3 beta\", \"c text 3 gamma\", \"d text 3 delta\",
    \"a fill 3 6000 46\", \"b fill 3 6000 46\", \"c fill 3 6000 46\", \"d fill 3 6000 46\",
    \"a close 3\", \"b close 3\", \"c close 3\", \"d close 3\",
    \"a open /a/one r\", \"b open /b/one r\", \"c open /c/one r\", \"d open /d/one r\",
    \"a read 3 5\", \"b read 3 4\", \"c read 3 5\", \"d read 3 5\",
    \"a lseek 3 0 2\", \"b lseek 3 0 2\", \"c lseek 3 0 2\", \"d lseek 3 0 2\",
    \"a link /a/one /a-one\", \"b link /b/one /b-one\", \"c link /c/one /c-one\", \"d link /d/one /d-one\",
    \"a chmod /a-one 600\", \"b chmod /b-one 600\", \"c chmod /c-one 600\", \"d chmod /d-one 600\",
    \"a rmdir /a\", \"b rmdir /b\", \"c rmdir /c\", \"d rmdir /d\",
    \"a access /a/none 4\", \"b access /b/none 4\", \"c access /c/none 4\", \"d access /d/none 4\",
]
faults = [
    \"9 finish 0 1 wipe 255\",
    \"14 gather 1 1 wipe 0 count 4 7\",
    \"23 enter 0 1 wipe 85\",
    \"36 leave 0 1 wipe 170\",
]
";

/// The lines of that job's callers, one caller after another, without their numbers.
pub const THREADS_OWN: &str = "\
a mkdir /a 755 = 0
a creat /a/one 644 = 3
a text 3 alpha = 5
a fill 3 6000 46 = 6000
a close 3 = 0
a open /a/one r = 3
a read 3 5 = 5 616c706861
a lseek 3 0 2 = 6005
a link /a/one /a-one = 0
a chmod /a-one 600 = 0
a rmdir /a = EEXIST
a access /a/none 4 = ENOENT
a exit = 0
b mkdir /b 755 = 0
b creat /b/one 644 = 3
b text 3 beta = 4
b fill 3 6000 46 = 6000
b close 3 = 0
b open /b/one r = 3
b read 3 4 = 4 62657461
b lseek 3 0 2 = 6004
b link /b/one /b-one = 0
b chmod /b-one 600 = 0
b rmdir /b = EEXIST
b access /b/none 4 = ENOENT
b exit = 0
c mkdir /c 755 = 0
c creat /c/one 644 = 3
c text 3 gamma = 5
c fill 3 6000 46 = 6000
c close 3 = 0
c open /c/one r = 3
c read 3 5 = 5 67616d6d61
c lseek 3 0 2 = 6005
c link /c/one /c-one = 0
c chmod /c-one 600 = 0
c rmdir /c = EEXIST
c access /c/none 4 = ENOENT
c exit = 0
d mkdir /d 755 = 0
d creat /d/one 644 = 3
d text 3 delta = 5
d fill 3 6000 46 = 6000
d close 3 = 0
d open /d/one r = 3
d read 3 5 = 5 64656c7461
d lseek 3 0 2 = 6005
d link /d/one /d-one = 0
d chmod /d-one 600 = 0
d rmdir /d = EEXIST
d access /d/none 4 = ENOENT
d exit = 0
";

// One byte more of a checksum, its highest bit first.
fn fed(sum: u32, byte: u8) -> u32 {
    let mut sum = sum ^ (u32::from(byte) << 24);
    for _ in 0..8 {
        sum = if sum & 0x8000_0000 == 0 {
            sum << 1
        } else {
            (sum << 1) ^ 0x04c1_1db7
        };
    }
    sum
}

// The checksum that the command `cksum` prints (POSIX cksum).
fn cksum(bytes: &[u8]) -> u32 {
    let mut sum = 0;
    for byte in bytes {
        sum = fed(sum, *byte);
    }
    for shift in [0, 8, 16, 24] {
        let rest = bytes.len() >> shift;
        if rest > 0 {
            sum = fed(sum, (rest % 256) as u8);
        }
    }
    !sum
}

fn starts_so<R: Abort>(rt: &R, line: &str, found: &str) -> Result<(), Fail> {
    assert!(rt; line.starts_with(found), "{line}: {found}");
    Ok(())
}

// That a line is the one that `cksum` prints for these bytes.
fn is_line_of<R: Abort + AllocGlobal>(rt: &R, line: &str, bytes: &[u8]) -> Result<(), Fail> {
    let sum = cksum(bytes);
    let length = bytes.len();
    let found = format!(in rt.alloc(); "{sum} {length} ")?;
    starts_so(rt, line, found.as_str())
}

// The files of the two examples of one caller.
fn are_those_of_one_caller<'a, R: Abort + AllocGlobal>(
    rt: &R,
    volume: &'a [u8],
    wiped: &'a [u8],
) -> Result<(), Fail> {
    for (line, bytes) in [
        ("3209886507 51200 hello/volume.v7", volume),
        ("229460024 110 hello/job.toml", HELLO_JOB.as_bytes()),
        ("3866134745 144 hello/job.out", HELLO_TEXT.as_bytes()),
        ("4193218373 121 hello/wiped.toml", WIPED_JOB.as_bytes()),
        ("266878701 135 hello/wiped.out", WIPED_TEXT.as_bytes()),
        ("3753691949 51200 hello/wiped.v7", wiped),
    ] {
        is_line_of(rt, line, bytes)?;
    }
    Ok(())
}

// Those of the examples of more callers.
fn are_those_of_more_callers<R: Abort + AllocGlobal>(rt: &R, session: &[u8]) -> Result<(), Fail> {
    for (line, bytes) in [
        (
            "2967201208 852 two-callers/job.toml",
            TWO_CALLERS_JOB.as_bytes(),
        ),
        ("1427719782 467 two-callers/session.out", session),
        ("2525395326 1442 threads/job.toml", THREADS_JOB.as_bytes()),
        ("1705368960 1089 threads/own.out", THREADS_OWN.as_bytes()),
    ] {
        is_line_of(rt, line, bytes)?;
    }
    Ok(())
}

fn example_volumes_are_those<R: Abort + AllocGlobal>(rt: &R) -> Result<(), Fail> {
    let volume = hello_volume(rt.alloc())?;
    let wiped = changed_volume(rt.alloc(), 0o640, 3)?;
    are_those_of_one_caller(rt, &volume, &wiped)
}

// `.ci/example-files` finds the lines that `cksum` prints for the files of `examples` here.
#[test]
fn the_files_of_the_examples_are_those_of_the_tests(rt: HostRuntime) -> Result<(), Fail> {
    example_volumes_are_those(&rt)?;
    let session = format!(in rt.alloc();
        "made 100 blocks 16 inodes\n{TWO_CALLERS_TEXT}{TWO_CALLERS_SOUND}"
    )?;
    are_those_of_more_callers(&rt, session.as_bytes())
}
