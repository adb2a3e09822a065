ghost use Rattle.std.specs.Prelude.{◌≤◌, ◌<◌, ◌+◌, ◌-◌, ◌≡◌, min};
ghost use Rattle.mb_iface.specs.Asking.{Finds};
ghost use Rattle.mb_iface.specs.Needs.{AsksFor};
ghost use Rattle.mb_iface.specs.OnVolumes.{OnVolumes};
ghost use Rattle.mb_iface.specs.declared.queries.Query.TheVariants.{Bytes};
ghost use Rattle.mb_file.specs.Reading.{Appends, CopiesBytes, CopiesPart};

use crate::parts::{Looked, PartAt, look, part_at};
use crate::walks::Walked;
use mb_iface::{Answer, Asked, Changes, Need, View, seen};
use mb_inodes::{Inode, read_inode};
use mb_kinds::Octets;
use std::alloc::Global;

/// Bytes of a file.
#[derive(Drop)]
enum Copied {
    /// These bytes.
    Bytes(Vec<u8>),
    /// The view lacks a block.
    Need(Need),
    /// Memory was wanted and not given.
    NoMemory,
}

/// Reads at most `count` bytes from an offset on of a regular file or a directory (V7 read(2)): none at
/// or past its size, and zeros where it has a hole.
pub fn read<V: View>(alloc: Global, view: &V, ino: u16, offset: u32, count: u16) -> Asked
    ensures need { AsksFor (V.shown view.now) result }
    ensures answer { OnVolumes (V.shown view.now) (λ image tree. Finds image tree (Bytes ino offset count) result) }
{
    let changes = Changes::new(alloc);
    let inode = match read_inode(view, &changes, ino) {
        Inode::Here(inode) => inode,
        Inode::Need(need) => return Asked::Need(need),
    };
    let most = readable(inode.size, offset, count);
    if most == 0 {
        return Asked::Found(Answer::Bytes(Octets::from_vec(Vec::new(alloc))));
    }
    let end = (offset + (most - 1)) / 512 + 1;
    if let Looked::Need(need) = look(view, &changes, ino, offset / 512, end) {
        return Asked::Need(need);
    }
    match copy(alloc, view, &changes, ino, offset, most) {
        Copied::Bytes(bytes) => Asked::Found(Answer::Bytes(Octets::from_vec(bytes))),
        Copied::Need(need) => Asked::Need(need),
        Copied::NoMemory => Asked::NoMemory,
    }
}

/// How many bytes a file of this size has from an offset on, at most the count.
fn readable(size: u32, offset: u32, count: u16) -> u32
    ensures most { result ≡ min (size - offset) count }
    ensures small { size < 4294967296 }
{
    size.saturating_sub(offset).min(u32::from(count))
}

/// Copies so many bytes of a file from an offset on, whatever its size.
fn copy<V: View>(
    alloc: Global,
    view: &V,
    changes: &Changes,
    ino: u16,
    offset: u32,
    count: u32,
) -> Copied
    requires few { count ≤ 65535 }
    requires fits { offset + count < 4294967296 }
    ensures { CopiesBytes (V.shown view.now) changes.now ino offset count result }
{
    let mut bytes = match Vec::with_capacity(alloc, count as usize) {
        Ok(bytes) => bytes,
        Err(_) => return Copied::NoMemory,
    };
    let mut done = 0;
    while done < count {
        let index = offset + done;
        let at = index % 512;
        let some = (512 - at).min(count - done);
        match copy_part(view, changes, ino, index / 512, at, some, &mut bytes) {
            Walked::Done => {}
            Walked::Need(need) => return Copied::Need(need),
            Walked::NoMemory => return Copied::NoMemory,
        }
        done += some;
    }
    Copied::Bytes(bytes)
}

/// Appends so many bytes of a part of a file, from a place in it on.
fn copy_part<V: View>(
    view: &V,
    changes: &Changes,
    ino: u16,
    part: u32,
    at: u32,
    some: u32,
    bytes: &mut Vec<u8>,
) -> Walked
    requires { at + some ≤ 512 }
    ensures { CopiesPart (V.shown view.now) changes.now ino part at some bytes.old.items bytes.new.items result }
{
    let from = at as usize;
    let to = (at + some) as usize;
    match part_at(view, changes, ino, part) {
        PartAt::Block(block) => {
            let Some(found) = seen(view, changes, block) else {
                return Walked::Need(Need::one(block));
            };
            append(bytes, found, from, to)
        }
        PartAt::Hole => append(bytes, &[0; 512], from, to),
        PartAt::Need(need) => Walked::Need(need),
    }
}

/// Appends some of a block's bytes.
fn append(bytes: &mut Vec<u8>, block: &[u8; 512], from: usize, to: usize) -> Walked
    requires order { from ≤ to }
    requires within { to ≤ 512 }
    ensures { Appends bytes.old.items block.now from to bytes.new.items result }
{
    match bytes.extend_from_slice(&block[from..to]) {
        Ok(()) => Walked::Done,
        Err(_) => Walked::NoMemory,
    }
}
