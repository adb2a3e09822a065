use crate::trials::{
    End, NOTHING_FAILS, checked, ends_with, fresh, image_after, keeps, opened, run,
};
use crate::volumes::{hello_volume, put};
use std::alloc::{AllocError, Global};
use std::process::Abort;
use std::test::Fail;

// That words end the program so over the volume of the example, which stays as it is.
fn keeps_the_example<R: Abort + AllocGlobal>(
    rt: &R,
    words: &[&str],
    job: &str,
    status: u8,
    lines: &str,
) -> Result<(), Fail> {
    let volume = hello_volume(rt.alloc())?;
    keeps(rt, words, &volume, job, NOTHING_FAILS, status, lines)
}

// Near misses of each command. None reads its job, which is none, nor the image.
#[test]
fn words_end_the_program_by_their_command(rt: HostRuntime) -> Result<(), Fail> {
    let refused = "words refused\n";
    for (words, line) in [
        ([].as_slice(), refused),
        (["run", "--help"].as_slice(), refused),
        (["run", ""].as_slice(), refused),
        (["run", "v", "w"].as_slice(), refused),
        (["mkfs", "v", "4", "16"].as_slice(), refused),
        (["mkfs", "v", "100", "15"].as_slice(), refused),
        (["mkfs", "v", "100"].as_slice(), refused),
        (["check", "v", "w"].as_slice(), refused),
        (["soak", "v", "1", "0", "0"].as_slice(), refused),
        (["soak", "v", "1", "1", "256"].as_slice(), refused),
    ] {
        keeps_the_example(&rt, words, "calls = [", 1, line)?;
    }
    Ok(())
}

// The same for a job.
fn job_keeps_it<R: Abort + AllocGlobal>(
    rt: &R,
    job: &str,
    status: u8,
    lines: &str,
) -> Result<(), Fail> {
    keeps_the_example(rt, &["run", "v"], job, status, lines)
}

fn blanks(alloc: Global) -> Result<String, AllocError> {
    let mut blanks = String::new(alloc);
    for _ in 0..4_194_305 {
        blanks.push(' ')?;
    }
    Ok(blanks)
}

#[test]
fn refused_jobs(rt: HostRuntime) -> Result<(), Fail> {
    for (job, line) in [
        ("calls = ['a creat /f 888']", "job refused: call 1\n"),
        ("calls = []\ncolor = 1", "job refused: key color\n"),
        (
            "calls = ['a sync']\nfaults = ['9 gather 0 1']",
            "job refused: fault 1\n",
        ),
        ("calls = []\norder = 'az'", "job refused: order 2\n"),
        ("calls = [", "job refused: not toml\n"),
    ] {
        job_keeps_it(&rt, job, 2, line)?;
    }
    let blanks = blanks(rt.alloc())?;
    job_keeps_it(&rt, blanks.as_str(), 2, "job refused: too long\n")
}

fn push_repeated(job: &mut String, times: u32, call: &str, last: &str) -> Result<(), AllocError> {
    job.push_str("calls = [")?;
    for _ in 0..times {
        job.push_str(call)?;
        job.push_str(", ")?;
    }
    job.push_str(last)?;
    job.push_str("]\n")
}

// A job of the same call so many times, and then of another.
fn repeated(alloc: Global, times: u32, call: &str, last: &str) -> Result<String, AllocError> {
    let mut job = String::new(alloc);
    push_repeated(&mut job, times, call, last)?;
    Ok(job)
}

// That such a job is refused, with that line.
fn refuses_repeated<R: Abort + AllocGlobal>(
    rt: &R,
    times: u32,
    call: &str,
    last: &str,
    line: &str,
) -> Result<(), Fail> {
    let job = repeated(rt.alloc(), times, call, last)?;
    job_keeps_it(rt, job.as_str(), 2, line)
}

#[test]
fn job_limits(rt: HostRuntime) -> Result<(), Fail> {
    let read = "'a read 3 65535'";
    refuses_repeated(&rt, 256, read, "'a read 3 257'", "job refused: call 257\n")?;
    job_keeps_it(
        &rt,
        "calls = ['a exit', 'a sync']",
        2,
        "job refused: call 2\n",
    )?;
    let sync = "'a sync'";
    refuses_repeated(&rt, 100_000, sync, sync, "job refused: call 100001\n")
}

fn run_at_the_limit(alloc: Global) -> Result<End, Fail> {
    let read = "'a read 3 65535'";
    let job = repeated(alloc, 256, read, "'a read 3 256'")?;
    run(
        alloc,
        &["run", "v"],
        hello_volume(alloc)?,
        job.as_str(),
        NOTHING_FAILS,
    )
}

#[test]
fn job_at_the_limit(rt: HostRuntime) -> Result<(), Fail> {
    let end = run_at_the_limit(rt.alloc())?;
    ends_with(
        &rt,
        &end,
        0,
        b"257 a read 3 256 = EBADF\n258 a exit = 0\nend 258 faults 0 seal 258\n",
    )
}

fn is_so_without<R: Abort + AllocGlobal>(rt: &R, keys: &str) -> Result<(), Fail> {
    let lines = "1 a close 3 = EBADF\n2 a exit = 0\nend 2 faults 0 seal 2\n";
    let job = format!(in rt.alloc(); "{keys}\ncalls = ['a close 3']\n")?;
    job_keeps_it(rt, job.as_str(), 0, lines)
}

// Keys that say what is so without them, or what this job does not come to.
#[test]
fn keys_may_say_what_is_so_without_them(rt: HostRuntime) -> Result<(), Fail> {
    for keys in [
        "",
        "callers = ['a 0 0']",
        "callers = ['a 0 0', 'b 0 0']",
        "callers = ['h 7 7', 'a 1 65535']",
        "faults = []",
        "limit = 255",
        "limit = 0",
        "start = 0",
        "start = 1000000000",
        "threshold = 64",
        "threshold = 1",
        "threshold = 4096",
        "order = ''",
        "order = ' '",
        "order = '=>*'",
        "order = 'aaaaaaaaaaaaaaaaaaaa'",
    ] {
        is_so_without(&rt, keys)?;
    }
    Ok(())
}

fn is_a_name<R: Abort + AllocGlobal>(rt: &R, path: &str) -> Result<(), Fail> {
    let job = format!(in rt.alloc(); "calls = ['a open {path} rw', 'a stat {path}']\n")?;
    let lines = format!(in rt.alloc();
        "1 a open {path} rw = 3\n2 a stat {path} = ino 3 mode 100644 nlink 1 uid 0 gid 0 size 5 atime 0 mtime 0 ctime 0\n3 a exit = 0\nend 3 faults 0 seal 3\n"
    )?;
    job_keeps_it(rt, job.as_str(), 0, lines.as_str())
}

#[test]
fn a_file_has_many_names_of_its_path(rt: HostRuntime) -> Result<(), Fail> {
    for path in [
        "/hello",
        "hello",
        "//hello/",
        "/./hello",
        "/../hello",
        "../hello",
    ] {
        is_a_name(&rt, path)?;
    }
    Ok(())
}

// That `check` and `run` say that line of an image, and leave it as it is.
fn refused_with<R: Abort + AllocGlobal>(rt: &R, image: &[u8], line: &str) -> Result<(), Fail> {
    checked(rt, image, 3, line)?;
    let job = "calls = ['a sync']";
    keeps(rt, &["run", "v"], image, job, NOTHING_FAILS, 3, line)
}

// What `check` and `run` say of an image.
fn refused<R: Abort + AllocGlobal>(rt: &R, image: &[u8], rule: &str) -> Result<(), Fail> {
    let line = format!(in rt.alloc(); "volume refused: {rule}\n")?;
    refused_with(rt, image, line.as_str())
}

#[test]
fn cut_superblock(rt: HostRuntime) -> Result<(), Fail> {
    refused(&rt, &[], "block 1 rule 1")?;
    let mut image = fresh(rt.alloc())?;
    image.truncate(712);
    refused(&rt, &image, "block 1 rule 1")
}

// Bytes of an image and where they stand.
type Edit<'a> = (usize, &'a [u8]);

fn put_all(image: &mut [u8], edits: &[Edit<'_>]) {
    for (at, bytes) in edits {
        put(image, *at, bytes);
    }
}

// That the fresh volume with these edits breaks that rule.
fn edits_break<R: Abort + AllocGlobal>(rt: &R, edits: &[Edit<'_>], rule: &str) -> Result<(), Fail> {
    let mut image = fresh(rt.alloc())?;
    put_all(&mut image, edits);
    refused(rt, &image, rule)
}

// The fresh volume with some edits. Its super-block stands at byte 512, with s_nfree at 518 and s_free from 520 on; the
// root's inode at 1088 with its first address at 1100; inode 3 at 1152 with its single indirect address at 1194; the
// root's slots at 2048; the list of the chain block 50 at 25602.
#[test]
fn refused_volumes(rt: HostRuntime) -> Result<(), Fail> {
    for (edits, rule) in [
        ([(518, [51, 0].as_slice())].as_slice(), "block 1 rule 3"),
        (
            [(528, [0, 0, 100, 0].as_slice())].as_slice(),
            "block 1 rule 4",
        ),
        (
            [(25602, [0, 0, 50, 0].as_slice())].as_slice(),
            "block 50 rule 7",
        ),
        (
            [(524, [0, 0, 4, 0].as_slice())].as_slice(),
            "block 4 rule 7",
        ),
        ([(1100, [0, 3, 0].as_slice())].as_slice(), "block 2 rule 6"),
        (
            [
                (518, [45, 0].as_slice()),
                (1152, [0xa4, 0x81].as_slice()),
                (1194, [0, 5, 0].as_slice()),
            ]
            .as_slice(),
            "block 5 rule 6",
        ),
        (
            [
                (1152, [0xa4, 0x81].as_slice()),
                (1160, [0x81, 0x40, 0x01, 0x14].as_slice()),
            ]
            .as_slice(),
            "block 2 rule 8",
        ),
        (
            [(1088, [0xff, 0x81].as_slice())].as_slice(),
            "block 2 rule 9",
        ),
        ([(2064, [3, 0].as_slice())].as_slice(), "block 4 rule 10"),
        ([(1090, [3, 0].as_slice())].as_slice(), "block 2 rule 14"),
    ] {
        edits_break(&rt, edits, rule)?;
    }
    Ok(())
}

// The first two files of a fresh volume that hold blocks have inodes 3 and 4, and blocks 5 and 6.
#[test]
fn refused_volumes_with_a_directory_in_itself(rt: HostRuntime) -> Result<(), Fail> {
    let job = "calls = ['a mkdir /d 755', 'a mkdir /d/e 755']";
    let lines =
        "1 a mkdir /d 755 = 0\n2 a mkdir /d/e 755 = 0\n3 a exit = 0\nend 3 faults 0 seal 3\n";
    let mut image = image_after(&rt, job, 0, lines)?;
    put(&mut image, 5 * 512 + 32, &[3, 0]);
    refused(&rt, &image, "block 2 rule 13")
}

// The volume of the example with one edit.
fn edited(alloc: Global, at: usize, bytes: &[u8]) -> Result<Vec<u8>, AllocError> {
    let mut image = hello_volume(alloc)?;
    put(&mut image, at, bytes);
    Ok(image)
}

fn edit_breaks<R: Abort + AllocGlobal>(
    rt: &R,
    at: usize,
    bytes: &[u8],
    rule: &str,
) -> Result<(), Fail> {
    let image = edited(rt.alloc(), at, bytes)?;
    refused(rt, &image, rule)
}

// Near misses of the volume of the example, by one edit: the rule that it breaks.
#[test]
fn each_edit_breaks_the_rule_of_its_place(rt: HostRuntime) -> Result<(), Fail> {
    for (at, bytes, rule) in [
        (512, [2, 0].as_slice(), "block 1 rule 2"),
        (512, [2, 0x20].as_slice(), "block 1 rule 2"),
        (516, [4, 0].as_slice(), "block 1 rule 2"),
        (516, [101, 0].as_slice(), "block 1 rule 2"),
        (720, [101, 0].as_slice(), "block 1 rule 3"),
        (25600, [51, 0].as_slice(), "block 50 rule 3"),
        (1152, [0xa4, 0x11].as_slice(), "block 2 rule 5"),
        (1098, [0x10, 0x14].as_slice(), "block 2 rule 8"),
        (1098, [49, 0].as_slice(), "block 2 rule 8"),
        (1098, [16, 0].as_slice(), "block 2 rule 8"),
        (1100, [0xff, 0xff, 0xff].as_slice(), "block 2 rule 6"),
        (2080, [1, 0].as_slice(), "block 4 rule 10"),
        (2080, [16, 0].as_slice(), "block 4 rule 10"),
        (2080, [17, 0].as_slice(), "block 4 rule 10"),
        (2080, [0xff, 0xff].as_slice(), "block 4 rule 10"),
        (2050, b"x".as_slice(), "block 4 rule 11"),
        (2064, [0, 0].as_slice(), "block 4 rule 11"),
        (2082, b".\0\0\0\0".as_slice(), "block 4 rule 11"),
        (2082, b"\0\0\0\0\0".as_slice(), "block 4 rule 12"),
        (2082, b"he/lo".as_slice(), "block 4 rule 12"),
        (2082, b"he\0lo".as_slice(), "block 4 rule 12"),
        (2080, [2, 0].as_slice(), "block 2 rule 13"),
        (2080, [0, 0].as_slice(), "block 2 rule 14"),
        (1154, [0, 0].as_slice(), "block 2 rule 14"),
        (1154, [2, 0].as_slice(), "block 2 rule 14"),
    ] {
        edit_breaks(&rt, at, bytes, rule)?;
    }
    Ok(())
}

fn edit_breaks_nothing<R: Abort + AllocGlobal>(
    rt: &R,
    at: usize,
    bytes: &[u8],
) -> Result<(), Fail> {
    let image = edited(rt.alloc(), at, bytes)?;
    let line = "sound nodes 2 held 2 free 94\n";
    opened(rt, &image, line, line)
}

// Edits that break no rule: a size past the parts, a name of 14 bytes, cached numbers and times.
#[test]
fn some_edits_break_no_rule(rt: HostRuntime) -> Result<(), Fail> {
    for (at, bytes) in [
        (1162, [0x01, 0x14].as_slice()),
        (2082, b"hellohellohell".as_slice()),
        (720, [1, 0, 3, 0].as_slice()),
        (922, [0xff; 102].as_slice()),
        (1151, [0xff].as_slice()),
        (1204, [1, 2, 3, 4, 5, 6, 7, 8].as_slice()),
    ] {
        edit_breaks_nothing(&rt, at, bytes)?;
    }
    Ok(())
}
