ghost use Rattle.std.specs.Prelude.{◌≡◌, ◌<◌, ◌≤◌, ◌+◌, ◌^◌, IfOk, OnOk, length};
ghost use Rattle.mb_kinds.specs.Image.{zeros};
ghost use Rattle.mb_tree.specs.Inodes.{plain_slot_bytes, byte_at, bytes_from, read_at, part_at};
ghost use Rattle.mb_tree.specs.Effect.{put_byte, put_bytes};
ghost use Rattle.std.specs.Prelude.{slice_index};

use crate::maps::Copied;
use crate::nodes::{Body, Node, Parts, PlainSlot, PlainSlots};
use mb_kinds::{Octets, Seq};
use std::alloc::{AllocError, Global};

/// The bytes of a part that is missing.
fn zeros() -> [u8; 512]
    ensures { result ≡ zeros }
{
    [0; 512]
}

/// The bytes of a part.
fn part_at(parts: &Parts, part: u32) -> [u8; 512]
    ensures { result ≡ part_at parts.now part }
{
    match parts.get(part) {
        Some(bytes) => *bytes,
        None => zeros(),
    }
}

/// One of the 16 bytes of a slot.
fn slot_byte(slot: &PlainSlot, at: usize) -> u8
    requires { at < 16 }
    ensures { result ≡ slice_index (plain_slot_bytes slot.now) at }
{
    match at {
        0 => (slot.ino % 256) as u8,
        1 => (slot.ino / 256) as u8,
        _ => slot.name[at - 2],
    }
}

impl Body {
    /// The byte at an index.
    fn byte(&self, index: u32) -> u8
        ensures { result ≡ byte_at self.now index }
    {
        match self {
            Body::Regular { parts, .. } => part_at(parts, index / 512)[(index % 512) as usize],
            Body::Directory { slots } => match slots.get((index / 16) as usize) {
                Some(slot) => slot_byte(slot, (index % 16) as usize),
                None => 0,
            },
            Body::Special { .. } => 0,
        }
    }

    /// So many bytes from an index on.
    fn bytes(&self, alloc: Global, index: u32, count: u16) -> Result<Octets, AllocError>
        requires { index + count < 2 ^ 32 }
        ensures bytes { IfOk result (λ bytes. bytes ≡ bytes_from self.now index count) }
        ensures many { IfOk result (λ bytes. length bytes ≡ count) }
    {
        let mut bytes = Vec::new(alloc);
        let mut done = 0;
        'turns: while done < count {
            bytes.push(self.byte(index + u32::from(done)))?;
            done += 1;
        }
        Ok(Octets::from_vec(bytes))
    }

    /// What a read of so many bytes at an offset gets: none at or past the size.
    pub fn read(&self, alloc: Global, offset: u32, count: u16) -> Result<Octets, AllocError>
        ensures bytes { IfOk result (λ bytes. bytes ≡ read_at self.now offset count) }
        ensures within { IfOk result (λ bytes. offset + length bytes < 2 ^ 32) }
    {
        let left = self.size().saturating_sub(offset);
        let most = u16::try_from(left).map_or(count, |left| left.min(count));
        self.bytes(alloc, offset, most)
    }
}

/// One byte put at its place.
fn put_byte(parts: &mut Parts, index: u32, byte: u8) -> Result<(), AllocError>
    ensures { OnOk result (parts.new ≡ put_byte parts.old index byte) }
{
    let mut part = part_at(parts, index / 512);
    part[(index % 512) as usize] = byte;
    parts.insert(index / 512, part)
}

/// Bytes put from an index on.
pub fn put_bytes(parts: &mut Parts, offset: u32, bytes: &[u8]) -> Result<(), AllocError>
    requires { offset + length bytes.now < 2 ^ 32 }
    ensures { OnOk result (parts.new ≡ put_bytes parts.old offset bytes.now) }
{
    let mut index = offset;
    for byte in bytes {
        put_byte(parts, index, *byte)?;
        index += 1;
    }
    Ok(())
}

fn copied_slots(alloc: Global, slots: &PlainSlots) -> Result<PlainSlots, AllocError>
    ensures { IfOk result (λ copy. copy ≡ slots.now) }
{
    Ok(Seq::from_vec(slots.as_slice().to_vec(alloc)?))
}

impl Copied for Body {
    fn copied(&self, alloc: Global) -> Result<Body, AllocError> {
        match self {
            Body::Regular { size, parts } => Ok(Body::Regular {
                size: *size,
                parts: parts.copied(alloc)?,
            }),
            Body::Directory { slots } => Ok(Body::Directory {
                slots: copied_slots(alloc, slots)?,
            }),
            Body::Special { size, area } => Ok(Body::Special {
                size: *size,
                area: *area,
            }),
        }
    }
}

impl Copied for Node {
    fn copied(&self, alloc: Global) -> Result<Node, AllocError> {
        Ok(Node {
            mode: self.mode,
            nlink: self.nlink,
            uid: self.uid,
            gid: self.gid,
            atime: self.atime,
            mtime: self.mtime,
            ctime: self.ctime,
            body: self.body.copied(alloc)?,
        })
    }
}
