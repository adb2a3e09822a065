//! The program: it takes its words, a job from standard input and the image from a file, and ends with a
//! status. The adapters of `mb_host` are the trusted edge: they count each error of the system, and tell nothing of
//! what files and pipes hold. `mb_commands` says which words are a command.
#![tactic(auto)]

use mb_commands::{Command, command_of, image_name};
use mb_edge::write_whole;
use mb_host::{FileDisk, InSource, OutSink, StandIns, Word8, Words};
use mb_program::{Finish, membrane};
use std::alloc::AllocError;
use std::env::Env;
use std::io::ErrorKind;
use std::process::ExitCode;
use std::{env, io};

// Words that are no text are no command.
fn words_of<R: Env + AllocGlobal>(rt: &R) -> Result<Words, AllocError> {
    let mut words = Vec::new(rt.alloc());
    let args = match env::args(rt) {
        Ok(args) => args,
        Err(error) if error.kind() == ErrorKind::OutOfMemory => return Err(AllocError),
        Err(_) => return Ok(Words::new(rt.alloc())),
    };
    for word in args.skip(1) {
        words.push(Word8::from_vec(word.into_bytes()))?;
    }
    Ok(Words::from_vec(words))
}

fn main(rt: HostRuntime) -> ExitCode {
    let mut out = OutSink::new(io::writer(&rt));
    // before anything is opened
    let Ok(_stand_ins) = StandIns::take(&rt) else {
        return match write_whole(&mut out, b"disk fault\n") {
            Ok(()) => ExitCode::from(5),
            Err(_) => ExitCode::from(7),
        };
    };
    let words = words_of(&rt);
    let path = match &words {
        Ok(words) => image_name(words).to_vec(rt.alloc()),
        Err(error) => Err(*error),
    };
    let (Ok(words), Ok(path)) = (words, path) else {
        let _ = write_whole(&mut out, b"no memory\n");
        return ExitCode::from(6);
    };
    let mut job = InSource::new(rt.reader());
    let makes = matches!(
        command_of(&words),
        Some(Command::Mkfs {
            blocks: _,
            inodes: _
        })
    );
    let disk = FileDisk::new(&rt, Word8::from_vec(path), makes);
    let Finish { status, held } = membrane(&rt, rt.alloc(), &words, &mut job, disk, &mut out);
    let _disk = held.into_disk();
    ExitCode::from(status)
}
