ghost use Rattle.std.specs.Prelude.{◌≡◌, bytes_eq, codes};
ghost use Rattle.mb_commands.specs.Words.{check_of, command_of, image_in, is_image_name, is_threaded, mkfs_of, mkfs_with, run_of, soak_of, soak_with, threads_of};

use crate::numbers::number_of;
use mb_host::{Word8, Words};

/// What the program is asked for.
#[derive(Clone, Copy, Debug, PartialEq, Eq, Drop)]
pub enum Command {
    /// `mkfs IMAGE BLOCKS INODES`: a fresh volume of so many blocks and inodes.
    Mkfs {
        blocks: u32,
        inodes: u32,
    },
    /// `check IMAGE`: whether the image is a volume; nothing is written to it.
    Check,
    /// `run IMAGE`: a job from standard input; with `--threads` before or behind the image each caller
    /// has a thread of its own.
    Run {
        threads: bool,
    },
    /// `soak IMAGE NUMBER CALLS FAULTS`: a job that is generated from a number, of 1 to 32768 calls and
    /// at most 255 faults.
    Soak {
        number: u32,
        calls: u32,
        faults: u32,
    },
}

/// The command that the words after the program's name are, or `None` where they are none. A number is
/// `0` or decimal digits without a leading 0, at most 4,294,967,295; an image's name is not empty and
/// does not begin with `-`. Whether a volume can be made with the sizes of a `mkfs` is for `make` of
/// `mb_mkfs` to say.
pub fn command_of(words: &Words) -> Option<Command>
    ensures { result ≡ command_of words.now }
{
    let [verb, rest @ ..] = words.as_slice() else {
        return None;
    };
    let verb = verb.as_slice();
    if verb == b"mkfs".as_slice() {
        return mkfs_of(rest);
    }
    if verb == b"check".as_slice() {
        return check_of(rest);
    }
    if verb == b"run".as_slice() {
        return run_of(rest);
    }
    if verb == b"soak".as_slice() {
        return soak_of(rest);
    }
    None
}

/// Whether the words are a `run` with `--threads`.
pub fn asks_threads(words: &Words) -> bool
    ensures { result ≡ is_threaded (command_of words.now) }
{
    match command_of(words) {
        Some(Command::Run { threads }) => threads,
        _ => false,
    }
}

/// The word that names a command's image: the second of two, the third of three or more whose second is `--threads`, and
/// else the second; no bytes where there is none.
pub fn image_name(words: &Words) -> &[u8]
    ensures { result.now ≡ image_in words.now }
{
    match words.as_slice() {
        [_, image] => image.as_slice(),
        [_, image, other, ..] => {
            if is_threads(image.as_slice()) {
                other.as_slice()
            } else {
                image.as_slice()
            }
        }
        _ => &[],
    }
}

fn mkfs_of(words: &[Word8]) -> Option<Command>
    ensures { result ≡ mkfs_of words.now }
{
    let [image, blocks, inodes] = words else {
        return None;
    };
    if !is_image_name(image.as_slice()) {
        return None;
    }
    mkfs_with(number_of(blocks.as_slice()), number_of(inodes.as_slice()))
}

fn mkfs_with(blocks: Option<u32>, inodes: Option<u32>) -> Option<Command>
    ensures { result ≡ mkfs_with blocks inodes }
{
    Some(Command::Mkfs {
        blocks: blocks?,
        inodes: inodes?,
    })
}

fn check_of(words: &[Word8]) -> Option<Command>
    ensures { result ≡ check_of words.now }
{
    match words {
        [image] if is_image_name(image.as_slice()) => Some(Command::Check),
        _ => None,
    }
}

fn run_of(words: &[Word8]) -> Option<Command>
    ensures { result ≡ run_of words.now }
{
    match words {
        [image] if is_image_name(image.as_slice()) => Some(Command::Run { threads: false }),
        [one, other] => threads_of(one.as_slice(), other.as_slice()),
        _ => None,
    }
}

fn threads_of(one: &[u8], other: &[u8]) -> Option<Command>
    ensures { result ≡ threads_of one.now other.now }
{
    if is_image_name(one) && is_threads(other) {
        return Some(Command::Run { threads: true });
    }
    if is_threads(one) && is_image_name(other) {
        return Some(Command::Run { threads: true });
    }
    None
}

fn soak_of(words: &[Word8]) -> Option<Command>
    ensures { result ≡ soak_of words.now }
{
    let [image, number, calls, faults] = words else {
        return None;
    };
    if !is_image_name(image.as_slice()) {
        return None;
    }
    soak_with(
        number_of(number.as_slice()),
        number_of(calls.as_slice()),
        number_of(faults.as_slice()),
    )
}

fn soak_with(number: Option<u32>, calls: Option<u32>, faults: Option<u32>) -> Option<Command>
    ensures { result ≡ soak_with number calls faults }
{
    let (number, calls, faults) = (number?, calls?, faults?);
    if calls < 1 || calls > 32768 || faults > 255 {
        return None;
    }
    Some(Command::Soak {
        number,
        calls,
        faults,
    })
}

fn is_threads(word: &[u8]) -> bool
    ensures { result ≡ bytes_eq word.now (codes "--threads") }
{
    word == b"--threads".as_slice()
}

fn is_image_name(word: &[u8]) -> bool
    ensures { result ≡ is_image_name word.now }
{
    match word {
        [] => false,
        [first, ..] => *first != b'-',
    }
}
