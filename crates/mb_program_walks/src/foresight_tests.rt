use crate::trials::prints;
use std::alloc::{AllocError, Global};
use std::process::Abort;
use std::test::Fail;

// Four times the same stat, after a file was made, with faults planned.
fn stat_job(alloc: Global, faults: &str) -> Result<String, AllocError> {
    format!(in alloc;
        "calls = ['a creat /f 644', 'a close 3', 'a stat /f', 'a stat /f', 'a stat /f', 'a stat /f']\nfaults = [{faults}]\n"
    )
}

fn stat_text(alloc: Global, faults: u8) -> Result<String, AllocError> {
    format!(in alloc;
        "\
1 a creat /f 644 = 3
2 a close 3 = 0
3 a stat /f = ino 3 mode 100644 nlink 1 uid 0 gid 0 size 0 atime 1 mtime 1 ctime 1
4 a stat /f = ino 3 mode 100644 nlink 1 uid 0 gid 0 size 0 atime 1 mtime 1 ctime 1
5 a stat /f = ino 3 mode 100644 nlink 1 uid 0 gid 0 size 0 atime 1 mtime 1 ctime 1
6 a stat /f = ino 3 mode 100644 nlink 1 uid 0 gid 0 size 0 atime 1 mtime 1 ctime 1
7 a exit = 0
end 7 faults {faults} seal 7
"
    )
}

// That so many of the faults planned strike.
fn strikes<R: Abort + AllocGlobal>(rt: &R, faults: &str, struck: u8) -> Result<(), Fail> {
    let job = stat_job(rt.alloc(), faults)?;
    let text = stat_text(rt.alloc(), struck)?;
    prints(rt, job.as_str(), 0, text.as_str())
}

// A stat of a name in the root gathers the tables, the block of the inodes, and then the root's block: the fault at its
// third time strikes. Once two such calls looked at both blocks, the next ones ask for them together, and gather twice.
#[test]
fn third_call_of_a_kind_asks_at_once(rt: HostRuntime) -> Result<(), Fail> {
    for (faults, struck) in [
        ("'3 gather 2 1'", 1),
        ("'4 gather 2 1'", 1),
        ("'5 gather 2 1', '6 gather 2 1'", 0),
        ("'5 gather 1 1', '6 gather 1 1'", 2),
    ] {
        strikes(&rt, faults, struck)?;
    }
    Ok(())
}
