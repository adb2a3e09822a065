ghost use Rattle.std.specs.Prelude.{◌≡◌};

use mb_edge::NoMemory;

/// Why a block could not be read.
#[derive(Clone, Copy, Debug, PartialEq, Eq, Drop)]
pub enum ReadFault {
    /// The disk failed: its count of faults rose.
    Device,
    /// There was no memory.
    NoMemory,
}

impl From<NoMemory> for ReadFault {
    ghost use Rattle.mb_cache.specs.declared.answers.ReadFault.TheVariants as fault;

    ghost from_gives = { λ _ e. e ≡ fault.NoMemory };

    fn from(_: NoMemory) -> ReadFault {
        ReadFault::NoMemory
    }
}

/// What a write-back came to.
#[derive(Clone, Copy, Debug, PartialEq, Eq, Drop)]
pub enum Flushed {
    /// One page was written to the disk.
    One,
    /// No page waits.
    Clean,
    /// The disk failed: its count of faults rose. The page waits on.
    Device,
}
