ghost use Rattle.std.specs.Prelude.{◌≡◌, ◌+◌, ◌*◌, ◌/◌, ◌<◌, ◌≤◌, All, IfOk, length, max, take};
ghost use Rattle.mb_kinds.specs.Image.{put};
ghost use Rattle.mb_edge.specs.Blocks.{image_of, written};

use crate::lists::Bytes;
use mb_kinds::NoMemory;
use std::alloc::Global;
use std::marker::Model;

/// Bytes of a device, in memory, with room for a stated number of blocks that is taken when it is made.
#[derive(Drop)]
pub struct Store {
    bytes: Vec<u8>,
    used: usize,
    room: u32,
}

impl Model for Store {
    ghost use Rattle.std.specs.Prelude.{◌≤◌, ◌*◌, ◌/◌, take, vec_len};
    ghost use Rattle.mb_edge.specs.Memory.{Stored};

    ghost Value = { Stored };

    ghost view = { λ a. record { bytes = take a.used a.bytes.items; room = a.room } };

    ghost invariant = { λ a. (512 * a.room ≤ vec_len a.bytes) × (a.used ≤ vec_len a.bytes) × (a.used / 512 ≤ a.room) };
}

impl Store {
    /// Takes over the bytes, with room for so many blocks, which holds the whole blocks of `image`.
    pub fn new(alloc: Global, image: Bytes, room: u32) -> Result<Store, NoMemory>
        requires { length image / 512 ≤ room }
        ensures { IfOk result (λ store. store ≡ record { bytes = image; room = room }) }
    {
        let mut bytes = image.into_vec();
        let used = bytes.len();
        bytes.resize(used.max(512 * room as usize), 0)?;
        Ok(Store { bytes, used, room })
    }

    /// The bytes that it holds.
    pub fn bytes(&self) -> &[u8]
        ensures { result.now ≡ self.now.bytes }
    {
        &self.bytes[..self.used]
    }

    /// The number of blocks that there is room for.
    pub fn room(&self) -> u32
        ensures { result ≡ self.now.room }
    {
        self.room
    }

    /// The number of whole blocks.
    pub fn blocks(&self) -> u32
        ensures { result ≡ (image_of self.now.bytes).count }
    {
        prove!(self.used / 512 <= self.room as usize);
        (self.used / 512) as u32
    }

    /// Copies a block; one past the end is zeros.
    pub fn read(&self, block: u32, into: &mut [u8])
        requires { length into.old ≡ 512 }
        ensures bytes { into.new ≡ (image_of self.now.bytes).at block }
        ensures small { All (λ byte. byte < 256) into.new }
    {
        give_block(&self.bytes, self.used, block as usize, into);
    }

    /// Replaces a block, or extends the device with zeros in between; needs no memory.
    pub fn write(&mut self, block: u32, from: &[u8])
        requires room { block < self.old.room }
        requires size { length from.now ≡ 512 }
        ensures bytes { self.new ≡ record self.old { bytes = written self.old.bytes block from.now } }
        ensures image { image_of self.new.bytes ≡ put (image_of self.old.bytes) block from.now }
    {
        self.used = put_block(&mut self.bytes, self.used, block as usize, from);
    }
}

fn give_block(bytes: &[u8], used: usize, block: usize, into: &mut [u8])
    requires used { used ≤ length bytes.now }
    requires size { length into.old ≡ 512 }
    ensures bytes { into.new ≡ (image_of (take used bytes.now)).at block }
    ensures small { All (λ byte. byte < 256) into.new }
{
    if block < used / 512 {
        into.copy_from_slice(&bytes[512 * block..512 * block + 512]);
    } else {
        into.fill(0);
    }
}

fn put_block(bytes: &mut [u8], used: usize, block: usize, from: &[u8]) -> usize
    requires used { used ≤ length bytes.old }
    requires room { 512 * block + 512 ≤ length bytes.old }
    requires size { length from.now ≡ 512 }
    ensures used { result ≡ max used (512 * block + 512) }
    ensures bytes { take result bytes.new ≡ written (take used bytes.old) block from.now }
{
    let whole = used / 512;
    if block < whole {
        bytes[512 * block..512 * block + 512].copy_from_slice(from);
        return used;
    }
    bytes[512 * whole..512 * block].fill(0);
    bytes[512 * block..512 * block + 512].copy_from_slice(from);
    512 * block + 512
}
