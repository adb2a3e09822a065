ghost use Rattle.std.specs.Prelude.{◌≡◌, ◌<◌, All, None};
ghost use Rattle.mb_host.specs.Silent.{tells_nothing};

use crate::faults::count_fault;
use crate::words::Word8;
use mb_edge::{Disk, Failed};
use std::fs::{File, OpenFile, OpenOptions};
use std::io;
use std::io::ErrorKind;
use std::os::unix::fs::FileExt;
use std::rt::Files;

/// A file as a disk of its whole blocks. It is opened at the first call, and tells none of its bytes. Each
/// error of the system is a fault.
#[derive(Drop)]
pub struct FileDisk<R: Files<File = File> + Drop> {
    files: R,
    path: Word8,
    make: bool,
    file: Option<File>,
    /// So many whole blocks the file was seen to have; 0 at first.
    whole: u64,
    faults: u64,
}

impl<R: Files<File = File> + Drop> FileDisk<R> {
    /// The file of that path, which need not be there yet. Where `make` is true the first call creates it, or
    /// empties one that is there.
    pub fn new(files: R, path: Word8, make: bool) -> FileDisk<R>
        ensures { ⟦<FileDisk<R> as Disk>⟧.faults result ≡ 0 }
    {
        FileDisk {
            files,
            path,
            make,
            file: None,
            whole: 0,
            faults: 0,
        }
    }

    fn open(&mut self) -> io::Result<()>
        ensures { self.new.faults ≡ self.old.faults }
    {
        if self.file.is_none() {
            let Ok(path) = str::from_utf8(self.path.as_slice()) else {
                return Err(io::Error::from(ErrorKind::InvalidInput));
            };
            let file = OpenOptions::new()
                .read(true)
                .write(true)
                .create(self.make)
                .truncate(self.make)
                .open(&self.files, path)?;
            self.file = Some(file);
        }
        Ok(())
    }

    fn count(&mut self) -> io::Result<u32>
        ensures { self.new.faults ≡ self.old.faults }
    {
        self.open()?;
        match &self.file {
            Some(file) => count_blocks(file),
            None => Err(io::Error::from(ErrorKind::NotFound)),
        }
    }

    fn give(&mut self, block: u32, into: &mut [u8]) -> io::Result<()>
        ensures faults { self.new.faults ≡ self.old.faults }
        ensures small { All (λ byte. byte < 256) into.new }
    {
        self.open()?;
        match &self.file {
            Some(file) => give_block(file, block, into),
            None => Err(io::Error::from(ErrorKind::NotFound)),
        }
    }

    /// The file's length is asked of the system only where the block lies behind what it was seen to have.
    fn put(&mut self, block: u32, from: &[u8]) -> io::Result<()>
        ensures { self.new.faults ≡ self.old.faults }
    {
        self.open()?;
        let Some(file) = &self.file else {
            return Err(io::Error::from(ErrorKind::NotFound));
        };
        let at = u64::from(block);
        if at > self.whole {
            self.whole = cut_off(file, at)?;
        }
        file.write_all_at(from, at * 512)?;
        self.whole = self.whole.max(at + 1);
        Ok(())
    }
}

impl<R: Files<File = File> + Drop> Disk for FileDisk<R> {
    ghost told = { λ _. None };

    ghost faults = { λ disk. disk.faults };

    fn blocks(&mut self) -> Result<u32, Failed> {
        match self.count() {
            Ok(count) => Ok(count),
            Err(_) => Err(count_fault(&mut self.faults)),
        }
    }

    fn read(&mut self, block: u32, into: &mut [u8; 512]) -> Result<(), Failed> {
        match self.give(block, into) {
            Ok(()) => Ok(()),
            Err(_) => Err(count_fault(&mut self.faults)),
        }
    }

    fn write(&mut self, block: u32, from: &[u8; 512]) -> Result<(), Failed> {
        match self.put(block, from) {
            Ok(()) => Ok(()),
            Err(_) => Err(count_fault(&mut self.faults)),
        }
    }

    ghost past = { λ disk image block told past. tells_nothing told };

    ghost sized = { λ disk image block told. tells_nothing told };
}

// More blocks than a number of 32 bits counts are a fault.
fn count_blocks(file: &File) -> io::Result<u32> {
    match u32::try_from(file.metadata()?.len() / 512) {
        Ok(count) => Ok(count),
        Err(_) => Err(io::Error::from(ErrorKind::FileTooLarge)),
    }
}

// The end of the file inside the block is the end of the disk before it.
fn give_block(file: &File, block: u32, into: &mut [u8]) -> io::Result<()>
    ensures { All (λ byte. byte < 256) into.new }
{
    match file.read_exact_at(into, u64::from(block) * 512) {
        Err(error) if error.kind() == ErrorKind::UnexpectedEof => {
            into.fill(0);
            Ok(())
        }
        answer => answer,
    }
}

// Bytes after the last whole block belong to no block, so they are cut off before a write past them. The whole blocks are
// told.
fn cut_off(file: &File, block: u64) -> io::Result<u64> {
    let whole = file.metadata()?.len() / 512;
    if whole < block {
        file.set_len(whole * 512)?;
    }
    Ok(whole)
}
