use crate::example_files::{THREADS_JOB, THREADS_OWN};
use crate::example_tests::{HI_JOB, HI_TEXT};
use crate::recovery_tests::FAILED_JOB;
use crate::trials::{End, ended, printed, sink, source, words};
use mb_edge::{Bytes, Fails, MemDisk, MemSink, MemSource};
use mb_program::{Finish, membrane};
use std::alloc::{AllocError, Global};
use std::process::Abort;
use std::sync::Wait;
use std::test::Fail;
use std::thread::Threads;

// The blocks for which the disk of a run has room.
const ROOM: u32 = 4096;

// A disk with that image, which never fails.
fn disk(alloc: Global, image: Vec<u8>) -> Result<MemDisk, Fail> {
    if image.len() / 512 > ROOM as usize {
        return Err("the image has more blocks than the disk".into());
    }
    let never = || Fails::new(alloc);
    Ok(MemDisk::new(
        alloc,
        Bytes::from_vec(image),
        ROOM,
        never(),
        never(),
        never(),
    )?)
}

// The program over a disk, between an input and an output.
fn program_on<R: Threads + Wait + Sync + AllocGlobal>(
    rt: &R,
    list: &[&str],
    source: &mut MemSource,
    disk: MemDisk,
    sink: &mut MemSink,
) -> Result<End, Fail> {
    let alloc: Global = rt.alloc();
    let words = words(alloc, list)?;
    let Finish { status, held } = membrane(rt, alloc, &words, source, disk, sink);
    ended(alloc, status, sink.taken(), held)
}

// The program over an image.
fn program_between<R: Threads + Wait + Sync + AllocGlobal>(
    rt: &R,
    list: &[&str],
    source: &mut MemSource,
    image: Vec<u8>,
    sink: &mut MemSink,
) -> Result<End, Fail> {
    let disk = disk(rt.alloc(), image)?;
    program_on(rt, list, source, disk, sink)
}

// The program from an input.
fn program_from<R: Threads + Wait + Sync + AllocGlobal>(
    rt: &R,
    list: &[&str],
    source: &mut MemSource,
    image: Vec<u8>,
) -> Result<End, Fail> {
    let mut sink = sink(rt.alloc(), &[])?;
    program_between(rt, list, source, image, &mut sink)
}

// Runs the program as its `main` does, while nothing fails.
fn program<R: Threads + Wait + Sync + AllocGlobal>(
    rt: &R,
    list: &[&str],
    image: Vec<u8>,
    job: &str,
) -> Result<End, Fail> {
    let mut source = source(rt.alloc(), job, &[])?;
    program_from(rt, list, &mut source, image)
}

// The volume that it makes of so many blocks and inodes.
fn volume<R: Threads + Wait + Sync + AllocGlobal>(
    rt: &R,
    blocks: &str,
    inodes: &str,
) -> Result<Vec<u8>, Fail> {
    let words = ["mkfs", "v", blocks, inodes];
    let made = program(rt, &words, Vec::new(rt.alloc()), "")?;
    Ok(made.image)
}

// That a check of an image ends well, with that line.
fn sound<R: Threads + Wait + Sync + Abort + AllocGlobal>(
    rt: &R,
    image: &[u8],
    line: &str,
) -> Result<(), Fail> {
    let copy = image.to_vec(rt.alloc())?;
    let end = program(rt, &["check", "v"], copy, "")?;
    printed(rt, &end, 0, line)
}

fn push_file(
    calls: &mut String,
    alloc: Global,
    caller: char,
    folder: &str,
    name: char,
    file: u8,
    size: u32,
) -> Result<(), AllocError> {
    let texts = format!(in alloc;
        ", '{caller} creat {folder}/{name}{file} 644', '{caller} fill 3 {size} 65', '{caller} close 3'"
    )?;
    calls.push_str(texts.as_str())
}

// A caller's calls that make thirty files in a folder, each of another size, as texts of a job.
fn push_files(
    calls: &mut String,
    alloc: Global,
    caller: char,
    folder: &str,
    name: char,
) -> Result<(), AllocError> {
    let mut size: u32 = 1024;
    for file in 0..30 {
        push_file(calls, alloc, caller, folder, name, file, size)?;
        size = size.saturating_add(1344);
    }
    Ok(())
}

fn push_file_lines(
    lines: &mut String,
    alloc: Global,
    caller: char,
    folder: &str,
    name: char,
    file: u8,
    size: u32,
) -> Result<(), AllocError> {
    let texts = format!(in alloc;
        "{caller} creat {folder}/{name}{file} 644 = 3\n{caller} fill 3 {size} 65 = {size}\n{caller} close 3 = 0\n"
    )?;
    lines.push_str(texts.as_str())
}

// What these calls print, without the numbers of the lines.
fn push_lines(
    lines: &mut String,
    alloc: Global,
    caller: char,
    folder: &str,
    name: char,
) -> Result<(), AllocError> {
    let mut size: u32 = 1024;
    for file in 0..30 {
        push_file_lines(lines, alloc, caller, folder, name, file, size)?;
        size = size.saturating_add(1344);
    }
    Ok(())
}

// Adds the rest of a line where it is that caller's. Its number is to be that of the line.
fn push_own_line(own: &mut String, line: &str, number: u32, caller: &str) -> Result<(), Fail> {
    let Some((counted, rest)) = line.split_once(' ') else {
        return Err("a line without a number".into());
    };
    if rest.starts_with(caller) {
        if counted.parse::<u32>() != Ok(number) {
            return Err("a line with another number".into());
        }
        own.push_str(rest)?;
        own.push_str("\n")?;
    }
    Ok(())
}

fn push_own_lines(own: &mut String, text: &str, caller: &str) -> Result<(), Fail> {
    let mut number: u32 = 0;
    for line in text.lines() {
        number = number.saturating_add(1);
        push_own_line(own, line, number, caller)?;
    }
    Ok(())
}

// The lines of a caller without their numbers, each of which is that of its line, up to the last line.
fn own_lines(alloc: Global, text: &str, caller: &str) -> Result<String, Fail> {
    let mut own = String::new(alloc);
    push_own_lines(&mut own, text, caller)?;
    Ok(own)
}

fn push_two_callers(job: &mut String, alloc: Global) -> Result<(), AllocError> {
    job.push_str(
        "callers = ['a 3 1', 'b 4 1']\nfaults = ['3 enter 0 1 wipe 0', '95 enter 0 1 wipe 0']\ncalls = ['a mkdir /src 777'",
    )?;
    push_files(job, alloc, 'a', "/src", 'f')?;
    job.push_str(", 'a link /src/f0 /src/first', 'b mkdir /lib 755'")?;
    push_files(job, alloc, 'b', "/lib", 'g')?;
    job.push_str("]\n")
}

// The job of two callers, each of whom makes files in a folder of its own and is struck at its third call.
fn two_callers_job(alloc: Global) -> Result<String, AllocError> {
    let mut job = String::new(alloc);
    push_two_callers(&mut job, alloc)?;
    Ok(job)
}

// The lines of the first of them, without numbers.
fn first_lines(alloc: Global) -> Result<String, AllocError> {
    let mut lines = String::from_str(alloc, "a mkdir /src 777 = 0\n")?;
    push_lines(&mut lines, alloc, 'a', "/src", 'f')?;
    lines.push_str("a link /src/f0 /src/first = 0\na exit = 0\n")?;
    Ok(lines)
}

// Those of the second.
fn second_lines(alloc: Global) -> Result<String, AllocError> {
    let mut lines = String::from_str(alloc, "b mkdir /lib 755 = 0\n")?;
    push_lines(&mut lines, alloc, 'b', "/lib", 'g')?;
    lines.push_str("b exit = 0\n")?;
    Ok(lines)
}

// Whether a caller's lines are these.
fn has_lines(alloc: Global, text: &str, caller: &str, lines: &str) -> Result<bool, Fail> {
    let own = own_lines(alloc, text, caller)?;
    Ok(own.as_str() == lines)
}

fn first_prints(alloc: Global, text: &str) -> Result<bool, Fail> {
    let lines = first_lines(alloc)?;
    has_lines(alloc, text, "a ", lines.as_str())
}

fn second_prints(alloc: Global, text: &str) -> Result<bool, Fail> {
    let lines = second_lines(alloc)?;
    has_lines(alloc, text, "b ", lines.as_str())
}

// That the two print these lines, and that each is struck once, or one of them by the other's fault.
fn both_print<R: Abort + AllocGlobal>(rt: &R, text: &str) -> Result<(), Fail> {
    assert!(rt; first_prints(rt.alloc(), text)?);
    assert!(rt; second_prints(rt.alloc(), text)?);
    assert!(rt;
        text.ends_with("\nend 185 faults 1 seal 185\n")
            || text.ends_with("\nend 185 faults 2 seal 185\n")
    );
    Ok(())
}

fn run_of_two<R: Threads + Wait + Sync + AllocGlobal>(rt: &R) -> Result<End, Fail> {
    let image = volume(rt, "4096", "512")?;
    let job = two_callers_job(rt.alloc())?;
    program(rt, &["run", "v", "--threads"], image, job.as_str())
}

fn two_have_run<R: Threads + Wait + Sync + Abort + AllocGlobal>(
    rt: &R,
    end: &End,
) -> Result<(), Fail> {
    assert_eq!(rt; end.status, 0);
    both_print(rt, str::from_utf8(&end.printed)?)?;
    sound(rt, &end.image, "sound nodes 63 held 2486 free 1544\n")
}

// Two callers make files beside one another, each in a folder of its own, and each is struck at its third call. A fault
// that stops a call which another one unwound already has no record.
#[test]
fn two_threads(rt: HostRuntime) -> Result<(), Fail> {
    let end = run_of_two(&rt)?;
    two_have_run(&rt, &end)
}

fn push_all_own_lines(own: &mut String, text: &str) -> Result<(), Fail> {
    for caller in ["a ", "b ", "c ", "d "] {
        push_own_lines(own, text, caller)?;
    }
    Ok(())
}

// The lines of four callers without their numbers, one caller's after another's.
fn all_own_lines(alloc: Global, text: &str) -> Result<String, Fail> {
    let mut own = String::new(alloc);
    push_all_own_lines(&mut own, text)?;
    Ok(own)
}

fn four_print<R: Abort + AllocGlobal>(rt: &R, text: &str) -> Result<(), Fail> {
    let own = all_own_lines(rt.alloc(), text)?;
    assert_eq!(rt; own.as_str(), THREADS_OWN);
    Ok(())
}

fn four_have_run<R: Threads + Wait + Sync + Abort + AllocGlobal>(
    rt: &R,
    end: &End,
) -> Result<(), Fail> {
    assert_eq!(rt; end.status, 0);
    four_print(rt, str::from_utf8(&end.printed)?)?;
    sound(rt, &end.image, "sound nodes 9 held 57 free 39\n")
}

// The example of four callers.
#[test]
fn four_threads(rt: HostRuntime) -> Result<(), Fail> {
    let image = volume(&rt, "100", "16")?;
    let end = program(&rt, &["run", "--threads", "v"], image, THREADS_JOB)?;
    four_have_run(&rt, &end)
}

fn prints_in_a_thread<R: Threads + Wait + Sync + Abort + AllocGlobal>(
    rt: &R,
    job: &str,
    status: u8,
    text: &str,
) -> Result<(), Fail> {
    let image = volume(rt, "100", "16")?;
    let end = program(rt, &["run", "--threads", "v"], image, job)?;
    printed(rt, &end, status, text)
}

fn prints_where_it_is_struck_twice<R: Threads + Wait + Sync + Abort + AllocGlobal>(
    rt: &R,
) -> Result<(), Fail> {
    let job = format!(in rt.alloc(); "{HI_JOB}\nfaults = ['2 gather 0 2 wipe 255']\n")?;
    let text = "\
1 a creat /f 644 = 3
2 a text 3 hi = EIO restart 1 2
3 a close 3 = 0
4 a exit = 0
end 4 faults 2 seal 4
";
    prints_in_a_thread(rt, job.as_str(), 0, text)
}

// Where there is one caller its transcript is that of one thread, whatever strikes it.
#[test]
fn one_caller_in_a_thread(rt: HostRuntime) -> Result<(), Fail> {
    let failed_text = "\
1 a creat /f 644 = 3
2 a text 3 hi = FAILED 1
3 a exit = FAILED 1
failed 3 faults 1 seal 1
";
    prints_where_it_is_struck_twice(&rt)?;
    for (job, status, text) in [
        (HI_JOB, 0, HI_TEXT),
        (FAILED_JOB, 4, failed_text),
        ("calls = [", 2, "job refused: not toml\n"),
    ] {
        prints_in_a_thread(&rt, job, status, text)?;
    }
    Ok(())
}

// What is no volume is refused as it is without threads.
#[test]
fn threads_need_a_volume(rt: HostRuntime) -> Result<(), Fail> {
    let end = program(
        &rt,
        &["run", "--threads", "v"],
        Vec::new(rt.alloc()),
        HI_JOB,
    )?;
    printed(&rt, &end, 3, "volume refused: block 1 rule 1\n")
}
