use crate::benches::{Bench, CallCounts};
use crate::faults::BenchFault;
use mb_kinds::{Call, How, Octets, Path, Reply, Whence};
use std::alloc::Global;

/// The calls that are counted.
#[derive(Clone, Copy, Debug, PartialEq, Drop)]
pub enum BenchKind {
    /// `creat` and `close` of new files, and `mkdir` of each hundredth one's directory.
    Make,
    /// The paths of files, each time in another directory, and no call.
    Path,
    /// `stat` of the files of these paths.
    Stat,
    /// `lseek` to the beginning of a file.
    Seek,
    /// `lseek` to the beginning of a file, and `read` of its 100 bytes.
    Read,
    /// `unlink` of files of 1,048,576 bytes.
    Unlink,
}

/// Calls of a kind, after so many files were made in directories of 100.
#[derive(Clone, Copy, Debug, PartialEq, Drop)]
pub struct BenchJob {
    pub kind: BenchKind,
    pub made: u32,
    pub calls: u32,
}

/// How many files a directory has.
const FILES: u32 = 100;

/// How many bytes are written at once.
const WRITTEN: u32 = 32_768;

/// The kind that a word names.
fn kind_of(word: &str) -> Option<BenchKind> {
    match word {
        "make" => Some(BenchKind::Make),
        "path" => Some(BenchKind::Path),
        "stat" => Some(BenchKind::Stat),
        "seek" => Some(BenchKind::Seek),
        "read" => Some(BenchKind::Read),
        "unlink" => Some(BenchKind::Unlink),
        _ => None,
    }
}

/// The name of a kind.
pub fn name_of(kind: BenchKind) -> &'static str {
    match kind {
        BenchKind::Make => "make",
        BenchKind::Path => "path",
        BenchKind::Stat => "stat",
        BenchKind::Seek => "seek",
        BenchKind::Read => "read",
        BenchKind::Unlink => "unlink",
    }
}

/// The job of three words: a kind, how many files, and how many calls.
pub fn job_of(words: &[String]) -> Option<BenchJob> {
    if words.len() != 3 {
        return None;
    }
    Some(BenchJob {
        kind: kind_of(words[0].as_str())?,
        made: words[1].as_str().parse::<u32>().ok()?,
        calls: words[2].as_str().parse::<u32>().ok()?,
    })
}

/// How many bytes a file of a job has.
fn size_of(kind: BenchKind) -> u32 {
    match kind {
        BenchKind::Make => 0,
        BenchKind::Unlink => 1_048_576,
        BenchKind::Path | BenchKind::Stat | BenchKind::Seek | BenchKind::Read => 100,
    }
}

/// A path of a text. An error is one that is none.
fn path_of(text: String) -> Result<Path, BenchFault> {
    let bytes = text.into_bytes();
    if bytes.len() > 255 || bytes.contains(&0) {
        return Err(BenchFault::Call);
    }
    Ok(Path::from_vec(bytes))
}

/// The path of a directory.
fn directory(heap: Global, number: u32) -> Result<Path, BenchFault> {
    path_of(format!(in heap; "/d{}", number)?)
}

/// The path of a file, in its directory.
fn file(heap: Global, number: u32) -> Result<Path, BenchFault> {
    path_of(format!(in heap; "/d{}/f{}", number / FILES, number)?)
}

/// The path of a file that lies 13 directories and 73 files behind that of the number before.
fn far_file(heap: Global, number: u32, made: u32) -> Result<Path, BenchFault> {
    file(heap, number.wrapping_mul(1_373) % made.max(1))
}

/// The descriptor that a call was answered.
fn descriptor_of(reply: &Reply) -> Result<u16, BenchFault> {
    match reply {
        Reply::Num(number) => u16::try_from(*number).map_err(|_| BenchFault::Call),
        _ => Err(BenchFault::Call),
    }
}

/// Makes a file, and for the first one of a directory that directory; the file stays open.
fn create(heap: Global, bench: &mut Bench, number: u32) -> Result<u16, BenchFault> {
    if number % FILES == 0 {
        let path = directory(heap, number / FILES)?;
        bench.call(&Call::Mkdir { path, mode: 0o755 })?;
    }
    let path = file(heap, number)?;
    descriptor_of(&bench.call(&Call::Creat { path, mode: 0o644 })?)
}

/// Writes so many bytes.
fn write(heap: Global, bench: &mut Bench, fd: u16, count: u32) -> Result<(), BenchFault> {
    let count = count.min(WRITTEN) as usize;
    let bytes = Octets::from_vec(vec![in heap; 65; count]?);
    bench.call(&Call::Write { fd, bytes })?;
    Ok(())
}

/// Makes a file of so many bytes, and closes it.
fn make_file(heap: Global, bench: &mut Bench, number: u32, size: u32) -> Result<(), BenchFault> {
    let fd = create(heap, bench, number)?;
    for _ in 0..size / WRITTEN {
        write(heap, bench, fd, WRITTEN)?;
    }
    if size % WRITTEN > 0 {
        write(heap, bench, fd, size % WRITTEN)?;
    }
    bench.call(&Call::Close { fd })?;
    Ok(())
}

/// Goes to the beginning of the first file so many times, and reads it there.
fn seek(heap: Global, bench: &mut Bench, calls: u32, reads: bool) -> Result<(), BenchFault> {
    let path = file(heap, 0)?;
    let how = How::Reading;
    let fd = descriptor_of(&bench.call(&Call::Open { path, how })?)?;
    let (offset, whence) = (0, Whence::Start);
    for _ in 0..calls {
        bench.call(&Call::Lseek { fd, offset, whence })?;
        if reads {
            bench.call(&Call::Read { fd, count: 100 })?;
        }
    }
    Ok(())
}

/// Makes the calls of a job.
fn make_calls(heap: Global, bench: &mut Bench, job: BenchJob) -> Result<(), BenchFault> {
    let BenchJob { kind, made, calls } = job;
    match kind {
        BenchKind::Seek => return seek(heap, bench, calls, false),
        BenchKind::Read => return seek(heap, bench, calls, true),
        BenchKind::Make | BenchKind::Path | BenchKind::Stat | BenchKind::Unlink => {}
    }
    for number in 0..calls {
        match kind {
            BenchKind::Make => make_file(heap, bench, made.saturating_add(number), 0)?,
            BenchKind::Path => {
                far_file(heap, number, made)?;
            }
            BenchKind::Stat => {
                let path = far_file(heap, number, made)?;
                bench.call(&Call::Stat { path })?;
            }
            _ => {
                let path = file(heap, number)?;
                bench.call(&Call::Unlink { path })?;
            }
        }
    }
    Ok(())
}

/// Does a job on a fresh volume, and counts its calls, those that made the files left out.
pub fn run(heap: Global, job: BenchJob) -> Result<CallCounts, BenchFault> {
    let mut bench = match job.kind {
        BenchKind::Unlink => Bench::new(heap, 65_535, 256)?,
        _ => Bench::new(heap, 12_288, 10_240)?,
    };
    for number in 0..job.made {
        make_file(heap, &mut bench, number, size_of(job.kind))?;
    }
    bench.forget_counts();
    make_calls(heap, &mut bench, job)?;
    Ok(bench.counts())
}
