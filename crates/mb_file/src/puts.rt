ghost use Rattle.std.specs.Prelude.{◌≤◌, ◌<◌, ◌+◌, ◌≡◌, length};
ghost use Rattle.mb_tree.specs.declared.operations.FsOp.TheVariants.{Put};
ghost use Rattle.mb_iface.specs.Acting.{ActsWhatever};
ghost use Rattle.mb_iface.specs.Needs.{ActsFor};
ghost use Rattle.mb_iface.specs.OnVolumes.{OnVolumes};
ghost use Rattle.mb_file.specs.Putting.{LacksForPut, PutsBytes, PutsPart, PutsWhole, SetsSize, grown_inode};

use crate::parts::{Looked, look};
use crate::spares::lacking_free;
use mb_bmap::{Reached, reach};
use mb_iface::{Acted, Changes, Edited, Need, View, edit};
use mb_inodes::{Inode, read_inode, write_inode};
use mb_kinds::Errno;
use mb_layout::{Dinode, inode_block};
use std::alloc::Global;

/// The greatest size of a file: 2,113,674 parts of 512 bytes.
const MOST: usize = 1_082_201_088;

/// What became of bytes that were to be put.
#[derive(Clone, Copy, Debug, PartialEq, Drop)]
enum Written {
    /// They are there.
    Done,
    /// The free chain has fewer blocks than are missing.
    NoneLeft,
    /// The view lacks a block.
    Need(Need),
    /// Memory was wanted and not given.
    NoMemory,
}

/// Puts bytes into a regular file from an offset on (V7 write(2)): a hole into which some of them fall
/// gets a block, and the file grows to hold them. `EFBIG` where they would end past the greatest size,
/// `ENOSPC` where the volume has fewer blocks for files than the file would need.
pub fn put<V: View>(
    alloc: Global,
    view: &V,
    ino: u16,
    offset: u32,
    bytes: &[u8],
    moment: u32,
) -> Acted
    ensures need { ActsFor (V.shown view.now) result }
    ensures answer { OnVolumes (V.shown view.now) (λ image tree.
        ActsWhatever (V.shown view.now) image tree (Put ino offset bytes.now moment) result) }
{
    if bytes.len() > MOST {
        return Acted::Refused(Errno::EFBIG);
    }
    if offset as usize > MOST - bytes.len() {
        return Acted::Refused(Errno::EFBIG);
    }
    let none = Changes::new(alloc);
    if let Some(need) = lacking(view, &none, ino, offset, bytes.len() as u32) {
        return Acted::Need(need);
    }
    let Ok(mut changes) = Changes::with_room(alloc, bytes.len() / 512 + 9) else {
        return Acted::NoMemory;
    };
    match put_whole(view, &mut changes, ino, offset, bytes, moment) {
        Written::Done => Acted::Done {
            changes,
            pick: None,
        },
        Written::NoneLeft => Acted::Refused(Errno::ENOSPC),
        Written::Need(need) => Acted::Need(need),
        Written::NoMemory => Acted::NoMemory,
    }
}

/// The first run of blocks that the view lacks of those that are wanted to put so many bytes: the blocks
/// that the file has of the parts, and then those that are taken for what it has not.
fn lacking<V: View>(view: &V, changes: &Changes, ino: u16, offset: u32, count: u32) -> Option<Need>
    requires { offset + count ≤ 1082201088 }
    ensures { LacksForPut (V.shown view.now) changes.now ino result }
{
    match look(
        view,
        changes,
        ino,
        offset / 512,
        (offset + count + 511) / 512,
    ) {
        Looked::Missing(0) => None,
        Looked::Missing(missing) => lacking_free(view, changes, missing),
        Looked::Need(need) => Some(need),
    }
}

/// Puts bytes into a file, and then sets its size and its times. On any other answer than `Done` the
/// changes are for letting go.
fn put_whole<V: View>(
    view: &V,
    changes: &mut Changes,
    ino: u16,
    offset: u32,
    bytes: &[u8],
    moment: u32,
) -> Written
    requires { offset + length bytes.now ≤ 1082201088 }
    ensures { PutsWhole (V.shown view.now) changes.old changes.new ino offset bytes.now moment result }
{
    let end = offset + bytes.len() as u32;
    match put_bytes(view, changes, ino, offset, bytes) {
        Written::Done => grow(view, changes, ino, end, moment),
        Written::NoneLeft => Written::NoneLeft,
        Written::Need(need) => Written::Need(need),
        Written::NoMemory => Written::NoMemory,
    }
}

/// Puts bytes into the parts of a file, one part after the other; its size and times stay.
fn put_bytes<V: View>(
    view: &V,
    changes: &mut Changes,
    ino: u16,
    offset: u32,
    bytes: &[u8],
) -> Written
    requires { offset + length bytes.now ≤ 1082201088 }
    ensures { PutsBytes (V.shown view.now) changes.old changes.new ino offset bytes.now result }
{
    let mut done = 0;
    while done < bytes.len() {
        let index = offset as usize + done;
        let place = index % 512;
        let some = (512 - place).min(bytes.len() - done);
        let wanted = ((bytes.len() - done) / 512 + 4) as u32;
        let piece = &bytes[done..done + some];
        match put_part(
            view,
            changes,
            ino,
            (index / 512) as u32,
            place,
            piece,
            wanted,
        ) {
            Written::Done => {}
            Written::NoneLeft => return Written::NoneLeft,
            Written::Need(need) => return Written::Need(need),
            Written::NoMemory => return Written::NoMemory,
        }
        done += some;
    }
    Written::Done
}

/// Puts bytes into one part of a file, from a place in it on; where the part is a hole it is made.
fn put_part<V: View>(
    view: &V,
    changes: &mut Changes,
    ino: u16,
    part: u32,
    place: usize,
    bytes: &[u8],
    wanted: u32,
) -> Written
    requires part { part < 2113674 }
    requires fits { place + length bytes.now ≤ 512 }
    requires wanted { 1 ≤ wanted }
    ensures { PutsPart (V.shown view.now) changes.old changes.new ino part place bytes.now result }
{
    match reach(view, changes, ino, part, wanted) {
        Reached::At(block) => {
            // no address of a volume is 0 here, or 262,144 or more
            if block == 0 {
                return Written::NoneLeft;
            }
            if block >= 262_144 {
                return Written::NoneLeft;
            }
            match edit(view, changes, block, place, bytes) {
                Edited::Done => Written::Done,
                Edited::Lacking => Written::Need(Need::one(block)),
                Edited::NoMemory => Written::NoMemory,
            }
        }
        Reached::NoneLeft => Written::NoneLeft,
        Reached::Need(need) => Written::Need(need),
        Reached::NoMemory => Written::NoMemory,
    }
}

/// Sets a file's size to where the put bytes end, if it is less, and its times to the moment.
fn grow<V: View>(view: &V, changes: &mut Changes, ino: u16, end: u32, moment: u32) -> Written
    ensures { SetsSize (V.shown view.now) changes.old changes.new ino end moment result }
{
    let inode = match read_inode(view, changes, ino) {
        Inode::Here(inode) => inode,
        Inode::Need(need) => return Written::Need(need),
    };
    match write_inode(view, changes, ino, &grown(&inode, end, moment)) {
        Edited::Done => Written::Done,
        Edited::Lacking => Written::Need(Need::one(inode_block(ino))),
        Edited::NoMemory => Written::NoMemory,
    }
}

/// A file's inode with a size that holds what was put.
fn grown(inode: &Dinode, end: u32, moment: u32) -> Dinode
    ensures { result ≡ grown_inode inode.now end moment }
{
    Dinode {
        size: inode.size.max(end),
        mtime: moment,
        ctime: moment,
        ..*inode
    }
}
