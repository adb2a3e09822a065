ghost use Rattle.mb_dirs.specs.Creating.{CreatesIn, MakesDirectoryIn};

use crate::choices::{Chosen, choose_number};
use crate::enters::{Entered, Gap, enter};
use crate::makes::{NewInode, make_directory, make_file};
use crate::steps::Advanced;
use mb_iface::{Changes, View};
use mb_kinds::Name;

/// Makes an empty regular file under a new name of a directory (V7 creat(2)): its number is chosen,
/// the name entered, and the inode made. The answer is the number; `NoneLeft` where no number is free,
/// or fewer blocks than the directory would need. The directory's link count becomes `links`.
pub fn create_in<V: View>(
    view: &V,
    changes: &mut Changes,
    dir: u16,
    links: u16,
    gap: Gap,
    name: &Name,
    new: &NewInode,
    demanded: Option<u16>,
) -> Chosen
    ensures { CreatesIn (V.shown view.now) changes.old changes.new dir links gap name.now new.now demanded result }
{
    let ino = match choose_number(view, changes, demanded) {
        Chosen::Number(ino) => ino,
        Chosen::NoneLeft => return Chosen::NoneLeft,
        Chosen::Need(need) => return Chosen::Need(need),
        Chosen::NoMemory => return Chosen::NoMemory,
    };
    match enter(view, changes, dir, links, new.moment, gap, name, ino) {
        Entered::Done => {}
        Entered::NoneLeft => return Chosen::NoneLeft,
        Entered::Need(need) => return Chosen::Need(need),
        Entered::NoMemory => return Chosen::NoMemory,
    }
    match make_file(view, changes, ino, new) {
        Advanced::Done => Chosen::Number(ino),
        Advanced::Need(need) => Chosen::Need(need),
        Advanced::NoMemory => Chosen::NoMemory,
    }
}

/// Makes a directory under a new name of a directory (V7 mkdir(1)): its number is chosen, the name
/// entered, and the inode made with its two first slots. The answer is the number; `NoneLeft` where no
/// number is free, or fewer blocks than are wanted. The parent's link count becomes `links`.
pub fn make_directory_in<V: View>(
    view: &V,
    changes: &mut Changes,
    dir: u16,
    links: u16,
    gap: Gap,
    name: &Name,
    new: &NewInode,
    demanded: Option<u16>,
) -> Chosen
    ensures { MakesDirectoryIn (V.shown view.now) changes.old changes.new dir links gap name.now new.now demanded result }
{
    let ino = match choose_number(view, changes, demanded) {
        Chosen::Number(ino) => ino,
        Chosen::NoneLeft => return Chosen::NoneLeft,
        Chosen::Need(need) => return Chosen::Need(need),
        Chosen::NoMemory => return Chosen::NoMemory,
    };
    match enter(view, changes, dir, links, new.moment, gap, name, ino) {
        Entered::Done => {}
        Entered::NoneLeft => return Chosen::NoneLeft,
        Entered::Need(need) => return Chosen::Need(need),
        Entered::NoMemory => return Chosen::NoMemory,
    }
    match make_directory(view, changes, ino, new, dir) {
        Entered::Done => Chosen::Number(ino),
        Entered::NoneLeft => Chosen::NoneLeft,
        Entered::Need(need) => Chosen::Need(need),
        Entered::NoMemory => Chosen::NoMemory,
    }
}
