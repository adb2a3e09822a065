use mb_kinds::{Call, How, Octets, Path, Whence};
use std::alloc::{AllocError, Global};
use std::test::Fail;

/// Calls that are drawn one after another, the same ones for the same seed.
#[derive(Drop)]
pub struct Draws {
    state: u64,
}

/// A path of bytes that are drawn.
fn path_of(text: Vec<u8>) -> Result<Path, Fail> {
    if text.len() > 255 || text.contains(&0) {
        return Err("no path is drawn".into());
    }
    Ok(Path::from_vec(text))
}

impl Draws {
    /// The draws of a seed.
    pub fn new(seed: u64) -> Draws {
        Draws { state: seed }
    }

    /// The next number, of 16 bits.
    fn next(&mut self) -> u16 {
        self.state = self
            .state
            .wrapping_mul(6_364_136_223_846_793_005)
            .wrapping_add(1_442_695_040_888_963_407);
        (self.state >> 48) as u16
    }

    /// The next caller of two.
    pub fn caller(&mut self) -> u8 {
        (self.next() % 2) as u8
    }

    /// The next descriptor, of 3 to 7.
    fn fd(&mut self) -> u16 {
        3 + self.next() % 5
    }

    /// The next component of a path.
    fn component(&mut self) -> &'static [u8] {
        match self.next() % 8 {
            0 => b"a",
            1 => b"b",
            2 => b"c",
            3 => b"d",
            4 => b"e",
            5 => b"f",
            6 => b"..",
            _ => b".",
        }
    }

    /// Adds the next path, of one or two components.
    fn add_path(&mut self, text: &mut Vec<u8>) -> Result<(), AllocError> {
        if self.next() % 2 == 0 {
            text.push(b'/')?;
        }
        if self.next() % 2 == 0 {
            text.extend_from_slice(self.component())?;
            text.push(b'/')?;
        }
        text.extend_from_slice(self.component())
    }

    /// The next path, of one or two components.
    fn path(&mut self, heap: Global) -> Result<Path, Fail> {
        let mut text = Vec::new(heap);
        self.add_path(&mut text)?;
        path_of(text)
    }

    /// The next bytes, at most 1,535 of them and all the same.
    fn bytes(&mut self, heap: Global) -> Result<Octets, Fail> {
        let byte = (self.next() % 256) as u8;
        let count = usize::from(self.next() % 1536);
        let bytes = vec![in heap; byte; count]?;
        if bytes.len() > 65_535 {
            return Err("too many bytes are drawn".into());
        }
        Ok(Octets::from_vec(bytes))
    }

    /// The next directions.
    fn how(&mut self) -> How {
        match self.next() % 3 {
            0 => How::Reading,
            1 => How::Writing,
            _ => How::Both,
        }
    }

    /// Where the next offset counts from.
    fn whence(&mut self) -> Whence {
        match self.next() % 3 {
            0 => Whence::Start,
            1 => Whence::Here,
            _ => Whence::End,
        }
    }

    /// The next call on a descriptor.
    fn file_call(&mut self, heap: Global) -> Result<Call, Fail> {
        let fd = self.fd();
        let call = match self.next() % 8 {
            0 | 1 => Call::Close { fd },
            2 => Call::Read {
                fd,
                count: self.next() % 2048,
            },
            3 | 4 => Call::Write {
                fd,
                bytes: self.bytes(heap)?,
            },
            5 => Call::Lseek {
                fd,
                offset: i32::from(self.next()) - 2_000,
                whence: self.whence(),
            },
            6 => Call::Dup { fd },
            _ => Call::Fstat { fd },
        };
        Ok(call)
    }

    /// The next call that makes or removes a name, or opens one.
    fn name_call(&mut self, path: Path, heap: Global) -> Result<Call, Fail> {
        let call = match self.next() % 8 {
            0 | 1 => Call::Open {
                path,
                how: self.how(),
            },
            2 | 3 => Call::Creat {
                path,
                mode: self.next() % 512,
            },
            4 => Call::Link {
                from: path,
                to: self.path(heap)?,
            },
            5 => Call::Unlink { path },
            6 => Call::Mkdir {
                path,
                mode: 448 + self.next() % 64,
            },
            _ => Call::Rmdir { path },
        };
        Ok(call)
    }

    /// The next call on the inode of a path.
    fn inode_call(&mut self, path: Path) -> Call {
        match self.next() % 6 {
            0 => Call::Chdir { path },
            1 => Call::Stat { path },
            2 => Call::Chmod {
                path,
                mode: self.next() % 4096,
            },
            3 => Call::Chown {
                path,
                uid: self.next() % 8,
                gid: self.next() % 8,
            },
            4 => Call::Utime {
                path,
                atime: 7,
                mtime: 9,
            },
            _ => Call::Access {
                path,
                bits: (self.next() % 8) as u8,
            },
        }
    }

    /// The next call without a path and a descriptor.
    fn plain_call(&mut self) -> Call {
        match self.next() % 4 {
            0 => Call::Exit,
            1 => Call::Sync,
            _ => Call::Umask {
                mask: self.next() % 64,
            },
        }
    }

    /// The next call.
    pub fn call(&mut self, heap: Global) -> Result<Call, Fail> {
        match self.next() % 32 {
            0 => Ok(self.plain_call()),
            1..=7 => {
                let path = self.path(heap)?;
                Ok(self.inode_call(path))
            }
            8..=19 => {
                let path = self.path(heap)?;
                self.name_call(path, heap)
            }
            _ => self.file_call(heap),
        }
    }
}
