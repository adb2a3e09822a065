use crate::example_files::{HELLO_JOB, WIPED_JOB, WIPED_TEXT};
use crate::example_tests::{HI_JOB, HI_TEXT};
use crate::recovery_tests::FAILED_JOB;
use crate::slow_sinks::SlowSink;
use crate::trials::{
    End, FailingCalls, NOTHING_FAILS, disk, first_read, fresh, keeps, left, printed,
    prints_without_its_first_read, run, sure_source, tells, words_alone,
};
use crate::volumes::{hello_volume, is_changed_volume};
use mb_edge::{Fails, MemDisk, MemSink, SureSource};
use mb_program::{Finish, Outcome, membrane_alone, print};
use std::alloc::{AllocError, Global};
use std::process::Abort;
use std::test::Fail;

// What the job that makes a file prints where the disk fails in the end of the run.
const HI_UNSETTLED: &str = "\
1 a creat /f 644 = 3
2 a text 3 hi = 2
3 a close 3 = 0
4 a exit = 0
disk fault
";

#[test]
fn failing_disk(rt: HostRuntime) -> Result<(), Fail> {
    let job = "calls = ['a stat /', 'a stat /']";
    let lines = "\
1 a stat / = EIO device
2 a stat / = ino 2 mode 040777 nlink 2 uid 0 gid 0 size 32 atime 0 mtime 0 ctime 0
3 a exit = 0
end 3 faults 0 seal 3
";
    prints_without_its_first_read(&rt, job, lines)
}

#[test]
fn failing_disk_at_every_write(rt: HostRuntime) -> Result<(), Fail> {
    let failing = FailingCalls {
        writes: &[1, 2, 3, 4, 5, 6, 7, 8],
        ..NOTHING_FAILS
    };
    let image = fresh(rt.alloc())?;
    keeps(&rt, &["run", "v"], &image, HI_JOB, failing, 5, HI_UNSETTLED)
}

// Runs a job over a fresh volume while one write of the disk fails.
fn run_with_failing_write(
    alloc: Global,
    list: &[&str],
    job: &str,
    write: u64,
) -> Result<End, Fail> {
    let writes = [write];
    let failing = FailingCalls {
        writes: &writes,
        ..NOTHING_FAILS
    };
    run(alloc, list, fresh(alloc)?, job, failing)
}

fn tells_with_failing_write<R: Abort + AllocGlobal>(
    rt: &R,
    list: &[&str],
    job: &str,
    write: u64,
    status: u8,
    lines: &str,
) -> Result<(), Fail> {
    let end = run_with_failing_write(rt.alloc(), list, job, write)?;
    printed(rt, &end, status, lines)
}

// The job changes four blocks: the super-block, the one with the inode, the root's and the file's. A write that fails
// leaves one as it was.
#[test]
fn the_disk_fails_one_write_after_another(rt: HostRuntime) -> Result<(), Fail> {
    let words = ["run", "v"];
    for write in 1..5 {
        tells_with_failing_write(&rt, &words, HI_JOB, write, 5, HI_UNSETTLED)?;
    }
    tells_with_failing_write(&rt, &words, HI_JOB, 5, 0, HI_TEXT)
}

// Every block is written.
#[test]
fn the_disk_fails_while_a_volume_is_made(rt: HostRuntime) -> Result<(), Fail> {
    let words = ["mkfs", "v", "100", "16"];
    for write in [1, 2, 50, 100] {
        tells_with_failing_write(&rt, &words, HI_JOB, write, 5, "disk fault\n")?;
    }
    Ok(())
}

// What a job prints whose volume failed after its first call, but for the last line.
const FAILED_REPLIES: &str = "\
1 a creat /f 644 = 3
2 a text 3 hi = FAILED 1
3 a exit = FAILED 1
";

fn fails_around<R: Abort + AllocGlobal>(
    rt: &R,
    write: u64,
    status: u8,
    last: &str,
) -> Result<(), Fail> {
    let lines = format!(in rt.alloc(); "{FAILED_REPLIES}{last}\n")?;
    tells_with_failing_write(rt, &["run", "v"], FAILED_JOB, write, status, lines.as_str())
}

// The checkpoint that was taken before the volume failed is written back: one page when the first call left, the others in the
// end of the run. A fault of the first write changes nothing, since its page is written again; one of the second is told.
#[test]
fn the_disk_fails_around_a_volume_that_failed(rt: HostRuntime) -> Result<(), Fail> {
    for (write, status, last) in [(1, 4, "failed 3 faults 1 seal 1"), (2, 5, "disk fault")] {
        fails_around(&rt, write, status, last)?;
    }
    Ok(())
}

fn push_number(job: &mut String, alloc: Global, number: u8) -> Result<(), AllocError> {
    let text = format!(in alloc; "{number}")?;
    job.push_str(text.as_str())
}

fn push_200_calls(job: &mut String, alloc: Global) -> Result<(), AllocError> {
    job.push_str("threshold = 4\ncalls = ['a stat /'")?;
    for byte in 0..66 {
        job.push_str(", 'a creat /f 644', 'a fill 3 600 ")?;
        push_number(job, alloc, byte)?;
        job.push_str("', 'a close 3'")?;
    }
    job.push_str("]\n")
}

// A job of 200 calls, with the exit that is added, and a checkpoint at every fourth logged operation.
fn job_of_200_calls(alloc: Global) -> Result<String, AllocError> {
    let mut job = String::new(alloc);
    push_200_calls(&mut job, alloc)?;
    Ok(job)
}

// Whether a run ended well, as one that nothing disturbed.
fn is_calm(end: &End, calm: &End) -> bool {
    end.status == 0 && end.printed == calm.printed && end.image == calm.image
}

fn tells_or_hides<R: Abort>(rt: &R, end: &End, calm: &End, write: u64) -> Result<bool, Fail> {
    let told = end.status == 5;
    let hidden = is_calm(end, calm);
    assert!(rt; told || hidden, "write {write}");
    Ok(told)
}

// Whether a run with such a write tells the fault. It is calm where it does not.
fn is_told<R: Abort + AllocGlobal>(
    rt: &R,
    job: &str,
    calm: &End,
    write: u64,
) -> Result<bool, Fail> {
    let end = run_with_failing_write(rt.alloc(), &["run", "v"], job, write)?;
    tells_or_hides(rt, &end, calm, write)
}

fn hides_and_then_tells<R: Abort + AllocGlobal>(rt: &R, job: &str, calm: &End) -> Result<(), Fail> {
    assert_eq!(rt; calm.status, 0);
    let (mut hidden, mut told) = (0, false);
    for write in 1..1000 {
        if is_told(rt, job, calm, write)? {
            told = true;
            continue;
        }
        if told {
            assert!(rt; hidden > 100, "only {hidden} writes between calls");
            return Ok(());
        }
        hidden = write;
    }
    Err("the run does not end its writes".into())
}

fn hides_and_tells<R: Abort + AllocGlobal>(rt: &R, job: &str) -> Result<(), Fail> {
    let image = fresh(rt.alloc())?;
    let calm = run(rt.alloc(), &["run", "v"], image, job, NOTHING_FAILS)?;
    hides_and_then_tells(rt, job, &calm)
}

// A write-back follows each call, and one of them fails. Before the end of the run that changes no reply, loses no page and
// leaves the same image; in the end of the run the disk's fault is told. Behind the last write nothing is left to fail.
#[test]
fn the_disk_fails_at_one_write_of_200_calls(rt: HostRuntime) -> Result<(), Fail> {
    let job = job_of_200_calls(rt.alloc())?;
    hides_and_tells(&rt, job.as_str())
}

fn size_is_not_told<R: Abort + AllocGlobal>(rt: &R, list: &[&str]) -> Result<(), Fail> {
    let failing = FailingCalls {
        sizes: &[1],
        ..NOTHING_FAILS
    };
    let image = fresh(rt.alloc())?;
    keeps(rt, list, &image, HI_JOB, failing, 5, "disk fault\n")
}

#[test]
fn the_disk_does_not_tell_its_size(rt: HostRuntime) -> Result<(), Fail> {
    for list in [["run", "v"], ["check", "v"]] {
        size_is_not_told(&rt, &list)?;
    }
    Ok(())
}

fn run_with_failing_read(
    alloc: Global,
    list: &[&str],
    image: Vec<u8>,
    read: u64,
) -> Result<End, Fail> {
    let reads = [read];
    let failing = FailingCalls {
        reads: &reads,
        ..NOTHING_FAILS
    };
    run(alloc, list, image, WIPED_JOB, failing)
}

fn check_tells_the_fault<R: Abort + AllocGlobal>(rt: &R, read: u64) -> Result<(), Fail> {
    let volume = hello_volume(rt.alloc())?;
    let end = run_with_failing_read(rt.alloc(), &["check", "v"], volume, read)?;
    printed(rt, &end, 5, "disk fault\n")
}

#[test]
fn the_disk_fails_while_an_image_is_checked(rt: HostRuntime) -> Result<(), Fail> {
    for read in [1, 2, 3, 4, 5] {
        check_tells_the_fault(&rt, read)?;
    }
    Ok(())
}

fn opening_tells_the_fault<R: Abort + AllocGlobal>(
    rt: &R,
    volume: &[u8],
    read: u64,
) -> Result<(), Fail> {
    let copy = volume.to_vec(rt.alloc())?;
    let end = run_with_failing_read(rt.alloc(), &["run", "v"], copy, read)?;
    left(rt, &end, 5, "disk fault\n", volume)
}

fn opening_tells_each_fault<R: Abort + AllocGlobal>(rt: &R, volume: &[u8]) -> Result<(), Fail> {
    for read in 1..first_read(rt.alloc(), volume)? {
        opening_tells_the_fault(rt, volume, read)?;
    }
    Ok(())
}

#[test]
fn the_disk_fails_in_the_opening(rt: HostRuntime) -> Result<(), Fail> {
    let volume = hello_volume(rt.alloc())?;
    opening_tells_each_fault(&rt, &volume)
}

// What the job of the example comes to where one of its calls met a fault of the disk: the replies of its four calls, the
// number of its faults, and the mode that is left, with its moment.
const AFTER_A_READ: [([&str; 4], u8, u16, u8); 3] = [
    (["EIO device", "0", "0", "EBADF"], 1, 0o640, 3),
    (["3", "0", "EIO device", "5 68656c6c6f"], 1, 0o600, 2),
    (["3", "0", "0", "EIO device"], 1, 0o640, 3),
];

// Whether a run ended well, with these replies and so many faults.
fn replied(alloc: Global, end: &End, replies: [&str; 4], faults: u8) -> Result<bool, AllocError> {
    let [open, first, second, read] = replies;
    let wanted = format!(in alloc;
        "1 a open /hello r = {open}\n2 a chmod /hello 600 = {first}\n3 a chmod /hello 640 = {second}\n4 a read 3 9 = {read}\n5 a exit = 0\nend 5 faults {faults} seal 5\n"
    )?;
    Ok(end.status == 0 && end.printed.as_slice() == wanted.as_bytes())
}

// Whether a run ended as one of these.
fn ended_as(
    alloc: Global,
    end: &End,
    replies: [&str; 4],
    faults: u8,
    mode: u16,
    moment: u8,
) -> Result<bool, AllocError> {
    let replied = replied(alloc, end, replies, faults)?;
    Ok(replied && is_changed_volume(alloc, &end.image, mode, moment)?)
}

// The place of the row that a run ended as; as many as there are rows where it ended as none.
fn row_of(alloc: Global, end: &End) -> Result<usize, AllocError> {
    let mut found = AFTER_A_READ.len();
    for (row, (replies, faults, mode, moment)) in AFTER_A_READ.into_iter().enumerate() {
        if ended_as(alloc, end, replies, faults, mode, moment)? {
            found = row;
        }
    }
    Ok(found)
}

// The same; a run that ended as none is to print what one prints without a fault of the disk.
fn row_or_whole<R: Abort + AllocGlobal>(rt: &R, end: &End) -> Result<usize, Fail> {
    let row = row_of(rt.alloc(), end)?;
    if row == AFTER_A_READ.len() {
        printed(rt, end, 0, WIPED_TEXT)?;
    }
    Ok(row)
}

fn row_with_failing_read<R: Abort + AllocGlobal>(rt: &R, read: u64) -> Result<usize, Fail> {
    let volume = hello_volume(rt.alloc())?;
    let end = run_with_failing_read(rt.alloc(), &["run", "v"], volume, read)?;
    row_or_whole(rt, &end)
}

fn first_read_of_the_example(alloc: Global) -> Result<u64, Fail> {
    let volume = hello_volume(alloc)?;
    first_read(alloc, &volume)
}

// A later read is that of a later call. The first call reads what the next two look at, so these read nothing; the recovery
// from the third one's fault reads anew, since it forgets what is clean; and the fourth reads the file's bytes.
#[test]
fn the_disk_fails_one_read_after_another(rt: HostRuntime) -> Result<(), Fail> {
    let first = first_read_of_the_example(rt.alloc())?;
    let mut last = 0;
    for read in first..first.saturating_add(100) {
        let row = row_with_failing_read(&rt, read)?;
        if row == AFTER_A_READ.len() {
            assert_eq!(rt; last, 2, "the last call was reached");
            return Ok(());
        }
        assert!(rt;
            row == last || row == last.saturating_add(1),
            "read {read}: {row}"
        );
        last = row;
    }
    Err("the run does not end its reads".into())
}

fn input_fails_at<R: Abort + AllocGlobal>(rt: &R, read: u64) -> Result<(), Fail> {
    let inputs = [read];
    let failing = FailingCalls {
        inputs: &inputs,
        ..NOTHING_FAILS
    };
    let image = fresh(rt.alloc())?;
    keeps(
        rt,
        &["run", "v"],
        &image,
        HI_JOB,
        failing,
        8,
        "input fault\n",
    )
}

// The job is read to its end before anything else is done with it.
#[test]
fn the_input_fails(rt: HostRuntime) -> Result<(), Fail> {
    for read in [1, 2] {
        input_fails_at(&rt, read)?;
    }
    Ok(())
}

// That a run whose output fails at once leaves that image.
fn silent_run_leaves<R: Abort + AllocGlobal>(
    rt: &R,
    list: &[&str],
    job: &str,
    image: &[u8],
) -> Result<(), Fail> {
    let failing = FailingCalls {
        outputs: &[1],
        ..NOTHING_FAILS
    };
    let end = run(rt.alloc(), list, fresh(rt.alloc())?, job, failing)?;
    left(rt, &end, 7, "", image)
}

fn output_fails<R: Abort + AllocGlobal>(rt: &R, list: &[&str], job: &str) -> Result<(), Fail> {
    let wanted = run(rt.alloc(), list, fresh(rt.alloc())?, job, NOTHING_FAILS)?;
    silent_run_leaves(rt, list, job, &wanted.image)
}

// The output fails whatever is to be said, and the image is what it would be.
#[test]
fn the_output_fails(rt: HostRuntime) -> Result<(), Fail> {
    for (list, job) in [
        ([].as_slice(), ""),
        (["mkfs", "v", "100", "16"].as_slice(), ""),
        (["check", "v"].as_slice(), ""),
        (["soak", "v", "1", "1", "0"].as_slice(), ""),
        (["run", "v"].as_slice(), "calls = ["),
        (["run", "v"].as_slice(), HI_JOB),
        (["run", "v"].as_slice(), WIPED_JOB),
    ] {
        output_fails(&rt, list, job)?;
    }
    Ok(())
}

// The status of a run over that disk and a sink that takes a byte at a time.
fn slow_status(
    alloc: Global,
    source: &mut SureSource,
    disk: MemDisk,
    out: &mut SlowSink,
) -> Result<u8, Fail> {
    let words = words_alone(alloc, &["run", "v"])?;
    let Finish { status, held } = membrane_alone(alloc, &words, source, disk, out);
    let _disk = held.into_disk();
    Ok(status)
}

// That over a fresh volume.
fn slow_fresh_status(
    alloc: Global,
    source: &mut SureSource,
    out: &mut SlowSink,
) -> Result<u8, Fail> {
    let disk = disk(alloc, fresh(alloc)?, NOTHING_FAILS)?;
    slow_status(alloc, source, disk, out)
}

// That of a job.
fn slow_job_status(alloc: Global, job: &str, out: &mut SlowSink) -> Result<u8, Fail> {
    let mut source = sure_source(alloc, job)?;
    slow_fresh_status(alloc, &mut source, out)
}

// That a sink took so many bytes of that text.
fn took<R: Abort>(rt: &R, out: &SlowSink, taken: usize, text: &[u8]) -> Result<(), Fail> {
    assert_eq!(rt; out.taken().len(), taken);
    assert!(rt; text.starts_with(out.taken()));
    Ok(())
}

// That a run ends with that status over a sink that fails at one of its writes, which takes so many bytes before.
fn slow_run<R: Abort + AllocGlobal>(
    rt: &R,
    fails_at: u64,
    status: u8,
    taken: usize,
) -> Result<(), Fail> {
    let mut out = SlowSink::new(rt.alloc(), fails_at)?;
    let found = slow_job_status(rt.alloc(), HI_JOB, &mut out)?;
    assert_eq!(rt; found, status, "write {fails_at}");
    took(rt, &out, taken, HI_TEXT.as_bytes())
}

// Each write but the failing one takes a byte, so that the failing one says how many were taken.
#[test]
fn the_output_fails_at_one_write_after_another(rt: HostRuntime) -> Result<(), Fail> {
    let length = HI_TEXT.len();
    for taken in 0..length {
        slow_run(&rt, (taken as u64).saturating_add(1), 7, taken)?;
    }
    slow_run(&rt, 0, 0, length)
}

// The causes in their order: the words, the input, the job, and the image or the disk.
#[test]
fn the_first_cause_ends_the_run(rt: HostRuntime) -> Result<(), Fail> {
    let nothing_works = FailingCalls {
        inputs: &[1],
        reads: &[1],
        writes: &[1],
        ..NOTHING_FAILS
    };
    let the_disk_fails = FailingCalls {
        reads: &[1],
        writes: &[1],
        ..NOTHING_FAILS
    };
    let unsound = "volume refused: block 1 rule 1\n";
    for (list, job, failing, status, line) in [
        (
            ["run"].as_slice(),
            "calls = [",
            nothing_works,
            1,
            "words refused\n",
        ),
        (
            ["run", "v"].as_slice(),
            "calls = [",
            nothing_works,
            8,
            "input fault\n",
        ),
        (
            ["run", "v"].as_slice(),
            "calls = [",
            the_disk_fails,
            2,
            "job refused: not toml\n",
        ),
        (
            ["run", "v"].as_slice(),
            HELLO_JOB,
            NOTHING_FAILS,
            3,
            unsound,
        ),
        (
            ["mkfs", "v", "100", "16"].as_slice(),
            "",
            nothing_works,
            5,
            "disk fault\n",
        ),
        (["check", "v"].as_slice(), "", nothing_works, 3, unsound),
    ] {
        let image = Vec::new(rt.alloc());
        tells(&rt, list, image, job, failing, status, line)?;
    }
    Ok(())
}

fn failing_sink(alloc: Global, write: u64) -> Result<MemSink, Fail> {
    let fails = Fails::from_vec([write].to_vec(alloc)?);
    Ok(MemSink::new(alloc, 64, fails)?)
}

// That a run which comes to that ends with that status where a write of its line fails.
fn ends_without_its_line<R: Abort + AllocGlobal>(
    rt: &R,
    write: u64,
    outcome: Outcome,
    status: u8,
) -> Result<(), Fail> {
    let mut out = failing_sink(rt.alloc(), write)?;
    assert_eq!(rt; print(&mut out, &outcome), status);
    Ok(())
}

#[test]
fn want_of_memory_stays_where_its_line_cannot_be_written(rt: HostRuntime) -> Result<(), Fail> {
    ends_without_its_line(&rt, 1, Outcome::OutOfMemory, 6)?;
    ends_without_its_line(&rt, 2, Outcome::OutOfMemory, 6)?;
    ends_without_its_line(&rt, 1, Outcome::DiskFault, 7)?;
    ends_without_its_line(&rt, 2, Outcome::DiskFault, 5)
}
