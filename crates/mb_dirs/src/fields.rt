ghost use Rattle.std.specs.Prelude.{◌≡◌};
ghost use Rattle.mb_dirs.specs.Fields.{SetsFields, dinode_with};

use crate::steps::Advanced;
use mb_iface::{Changes, Edited, Need, View};
use mb_inodes::{Inode, read_inode, write_inode};
use mb_layout::{Dinode, inode_block};

/// Fields of an inode that are set together. `moment` is when the inode is changed.
#[derive(Clone, Copy, Debug, PartialEq, Drop)]
pub enum FieldChange {
    /// The bits 07777 of its mode; the kind stays.
    Mode { mode: u16, moment: u32 },
    /// Its owner and the owner's group.
    Owner { uid: u16, gid: u16, moment: u32 },
    /// When it was read and when its bytes were written.
    Times { atime: u32, mtime: u32, moment: u32 },
    /// Its link count.
    Links { links: u16, moment: u32 },
    /// A directory's link count, with a change of its slots.
    Touch { links: u16, moment: u32 },
}

/// Sets fields of an inode, one from 1 to the last that is in use. Its size and what it holds stay.
pub fn set_fields<V: View>(
    view: &V,
    changes: &mut Changes,
    ino: u16,
    change: &FieldChange,
) -> Advanced
    ensures { SetsFields (V.shown view.now) changes.old changes.new ino change.now result }
{
    let inode = match read_inode(view, changes, ino) {
        Inode::Here(inode) => inode,
        Inode::Need(need) => return Advanced::Need(need),
    };
    let inode = with_fields(&inode, change);
    match write_inode(view, changes, ino, &inode) {
        Edited::Done => Advanced::Done,
        Edited::Lacking => Advanced::Need(Need::one(inode_block(ino))),
        Edited::NoMemory => Advanced::NoMemory,
    }
}

/// An inode's value with the fields.
fn with_fields(inode: &Dinode, change: &FieldChange) -> Dinode
    ensures { result ≡ dinode_with change.now inode.now }
{
    let mut inode = *inode;
    match *change {
        FieldChange::Mode { mode, moment } => {
            inode.mode = inode.mode & 0xf000 | mode;
            inode.ctime = moment;
        }
        FieldChange::Owner { uid, gid, moment } => {
            inode.uid = uid;
            inode.gid = gid;
            inode.ctime = moment;
        }
        FieldChange::Times {
            atime,
            mtime,
            moment,
        } => {
            inode.atime = atime;
            inode.mtime = mtime;
            inode.ctime = moment;
        }
        FieldChange::Links { links, moment } => {
            inode.nlink = links;
            inode.ctime = moment;
        }
        FieldChange::Touch { links, moment } => {
            inode.nlink = links;
            inode.mtime = moment;
            inode.ctime = moment;
        }
    }
    inode
}
