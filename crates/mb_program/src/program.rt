ghost use Rattle.std.specs.Prelude.{◌≡◌, ◌≤◌, ◌⊎◌, false};
ghost use Rattle.std.specs.Io.KnownBytes.{Appends};
ghost use Rattle.mb_commands.specs.Words.{command_of, is_threaded};
ghost use Rattle.mb_edge.specs.Causes.{Rose};
ghost use Rattle.mb_program.specs.Held.{held_disk};
ghost use Rattle.mb_program.specs.Outcomes.{HasEnded, IsPrinted, reads_job, status_of, text_of};

use crate::deciding::{Decided, decide, decide_by_threads};
use crate::finish::Finish;
use crate::outcomes::Outcome;
use mb_commands::asks_threads;
use mb_edge::{Disk, Sink, Source, write_whole};
use mb_host::Words;
use std::alloc::Global;
use std::sync::Wait;
use std::thread::Threads;

/// The program over any source, disk and sink: does what the words ask for, prints what comes of it, and gives back
/// the disk, or the core that a run drove. A `mkfs` makes a fresh volume on the disk; a `check` says whether the disk's
/// image is a volume; a `run` reads the job and runs it over the disk's image, with the faults of its plan, and with
/// `--threads` each caller in a thread of its own, whose lines then stand in the order of the history; a `soak` runs the
/// job that is generated from its numbers, and prints one line for all.
///
/// The statuses: 0 done; 1 the words are no command, or no volume has the sizes of a `mkfs`; 2 the job is refused; 3
/// the image is no volume; 4 more faults struck than the volume survives; 5 the disk failed at the opening, in `mkfs`, in
/// `check`, or in the end of the run; 6 want of memory; 7 the output failed; 8 the input failed. `specs/Outcomes.antt`
/// says when each comes.
///
/// Only a `run` reads from the source, and what stands behind the job's bytes stays there. With `--threads` a caller may
/// wait for another, so the promise is kept if the call returns. All else is `membrane_alone`, which always returns.
pub fn membrane<S: Source, D: Disk + Send, K: Sink, R: Threads + Wait + Sync>(
    rt: &R,
    alloc: Global,
    words: &Words,
    job: &mut S,
    disk: D,
    out: &mut K,
) -> Finish<D>
    ensures ended { HasEnded D.told D.faults words.now (S.left job.old) (S.left job.new)
        disk result.held (K.taken out.old) (K.taken out.new) result.status }
    ensures unread { reads_job (command_of words.now) ≡ false → job.new ≡ job.old }
    ensures input { result.status ≡ 8 → Rose (S.faults job.old) (S.faults job.new) }
    ensures device { result.status ≡ 5 → Rose (D.faults disk) (D.faults (held_disk result.held)) }
    ensures output { result.status ≡ 7 → Rose (K.faults out.old) (K.faults out.new) }
    ensures memory { result.status ≡ 6
        → Appends (K.taken out.old) (K.taken out.new) (text_of Outcome.OutOfMemory)
        ⊎ Rose (K.faults out.old) (K.faults out.new) }
    ensures later { D.faults disk ≤ D.faults (held_disk result.held) }
{
    if asks_threads(words) {
        let Decided { outcome, held } = decide_by_threads(rt, alloc, job, disk);
        let status = print(out, &outcome);
        return Finish { status, held };
    }
    membrane_alone(alloc, words, job, disk, out)
}

/// The program for all words but a `run` with `--threads`. It starts no thread and waits for nobody: it always returns.
pub fn membrane_alone<S: Source, D: Disk, K: Sink>(
    alloc: Global,
    words: &Words,
    job: &mut S,
    disk: D,
    out: &mut K,
) -> Finish<D>
    requires { is_threaded (command_of words.now) ≡ false }
    ensures ended { HasEnded D.told D.faults words.now (S.left job.old) (S.left job.new)
        disk result.held (K.taken out.old) (K.taken out.new) result.status }
    ensures unread { reads_job (command_of words.now) ≡ false → job.new ≡ job.old }
    ensures input { result.status ≡ 8 → Rose (S.faults job.old) (S.faults job.new) }
    ensures device { result.status ≡ 5 → Rose (D.faults disk) (D.faults (held_disk result.held)) }
    ensures output { result.status ≡ 7 → Rose (K.faults out.old) (K.faults out.new) }
    ensures memory { result.status ≡ 6
        → Appends (K.taken out.old) (K.taken out.new) (text_of Outcome.OutOfMemory)
        ⊎ Rose (K.faults out.old) (K.faults out.new) }
    ensures later { D.faults disk ≤ D.faults (held_disk result.held) }
{
    let Decided { outcome, held } = decide(alloc, words, job, disk);
    let status = print(out, &outcome);
    Finish { status, held }
}

/// Prints an outcome's text, and gives its status: 7 where it cannot be written. Want of memory stays 6 then.
pub fn print<K: Sink>(out: &mut K, outcome: &Outcome) -> u8
    ensures printed { IsPrinted outcome.now (K.taken out.old) (K.taken out.new) result }
    ensures output { result ≡ 7 → Rose (K.faults out.old) (K.faults out.new) }
    ensures memory { result ≡ 6
        → Appends (K.taken out.old) (K.taken out.new) (text_of Outcome.OutOfMemory)
        ⊎ Rose (K.faults out.old) (K.faults out.new) }
{
    let status = status_of(outcome);
    match write_whole(out, text_of(outcome)) {
        Ok(()) => status,
        Err(_) if status == 6 => 6,
        Err(_) => 7,
    }
}

fn status_of(outcome: &Outcome) -> u8
    ensures { result ≡ status_of outcome.now }
{
    match outcome {
        Outcome::Ran(_) | Outcome::Made(_) | Outcome::Checked(_) => 0,
        Outcome::WordsRefused => 1,
        Outcome::JobRefused(_) => 2,
        Outcome::Unsound(_) => 3,
        Outcome::GivenUp(_) => 4,
        Outcome::DiskFault | Outcome::Unsettled(_) => 5,
        Outcome::OutOfMemory => 6,
        Outcome::InputFault => 8,
    }
}

fn text_of(outcome: &Outcome) -> &[u8]
    ensures { result.now ≡ text_of outcome.now }
{
    match outcome {
        Outcome::WordsRefused => b"words refused\n",
        Outcome::InputFault => b"input fault\n",
        Outcome::DiskFault => b"disk fault\n",
        Outcome::OutOfMemory => b"no memory\n",
        Outcome::Made(line) | Outcome::Checked(line) | Outcome::Unsound(line) => line.as_slice(),
        Outcome::JobRefused(text)
        | Outcome::Unsettled(text)
        | Outcome::GivenUp(text)
        | Outcome::Ran(text) => text.as_slice(),
    }
}
