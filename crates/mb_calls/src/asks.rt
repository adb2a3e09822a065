ghost use Rattle.std.specs.Prelude.{◌≡◌};
ghost use Rattle.mb_tree.specs.Fits.{IsOpenable};
ghost use Rattle.mb_tree.specs.Trees.{IsDirectoryAt, IsThere};
ghost use Rattle.mb_calls.specs.Asks.{FindsInode, FindsPlace, FindsSpot, NearBeside, NearInode, NearItself, NearPath, NearSpot, NearUsedAt, NearUsedBy, TellsBeside, TellsBytes, TellsInode, TellsUsed, TellsUsedAt, TellsUsedBy};
ghost use Rattle.mb_calls.specs.Following.{IsKept};
ghost use Rattle.mb_calls.specs.Halts.{Needs};
ghost use Rattle.mb_calls.specs.Halts.Scope.{lacking};
ghost use Rattle.mb_calls.specs.Spots.{SpotNeeds, SpotWants, placed_of};

use crate::halts::Halt;
use crate::spots::Spot;
use crate::walks::{PathWalk, find_rest, place_rest};
use mb_iface::{Answer, Asked, FileSys, Query, View};
use mb_kinds::{Octets, Path, Stat};
use mb_tree::{Placed, PlainFile, Seat, is_directory};
use std::alloc::Global;

/// What stat tells of the inode to which a path leads. The first components were followed before, as far
/// as `walk` says. Refused with `ENOTDIR`, `EACCES` or `ENOENT` as the path is.
pub fn find<F: FileSys, V: View>(
    alloc: Global,
    fs: &F,
    view: &V,
    seat: &Seat,
    path: &Path,
    walk: &PathWalk,
) -> Result<Stat, Halt>
    requires kept { IsKept (V.shown view.now) seat.now path.now walk.now }
    ensures wants { Needs (lacking (V.shown view.now)) result }
    ensures says { FindsInode (V.shown view.now) seat.now path.now result }
    ensures near { NearPath (V.shown view.now) seat.now path.now result }
{
    find_rest(alloc, fs, view, seat, path, walk)
}

/// What stat tells of an inode that is there. An answer of another kind comes on no volume. It stands in each of
/// its callers, as the query does that it asks.
#[inline(always)]
pub fn info<F: FileSys, V: View>(alloc: Global, fs: &F, view: &V, ino: u16) -> Result<Stat, Halt>
    ensures wants { Needs (lacking (V.shown view.now)) result }
    ensures says { TellsInode (V.shown view.now) ino result }
    ensures near { NearInode (V.shown view.now) ino (λ tree. IsThere tree.nodes ino) result }
    ensures itself { NearItself (V.shown view.now) ino result }
{
    let query = Query::Info { ino };
    match fs.ask(alloc, view, &query) {
        Asked::Found(Answer::Node(stat)) => Ok(stat),
        Asked::Found(_) => Err(Halt::NoMemory),
        Asked::Refused(error) => Err(Halt::Refused(error)),
        Asked::Need(need) => Err(Halt::Need(need)),
        Asked::NoMemory => Err(Halt::NoMemory),
    }
}

/// The place of a path, as it is.
fn placed<F: FileSys, V: View>(
    alloc: Global,
    fs: &F,
    view: &V,
    seat: &Seat,
    path: &Path,
    walk: &PathWalk,
) -> Result<Placed, Halt>
    requires kept { IsKept (V.shown view.now) seat.now path.now walk.now }
    ensures wants { Needs (lacking (V.shown view.now)) result }
    ensures says { FindsPlace (V.shown view.now) seat.now path.now result }
    ensures near { NearPath (V.shown view.now) seat.now path.now result }
{
    place_rest(alloc, fs, view, seat, path, walk)
}

/// What stat tells beside a place.
fn look_beside<F: FileSys, V: View>(alloc: Global, fs: &F, view: &V, placed: Placed) -> Spot
    ensures is { placed_of result ≡ placed }
    ensures wants { SpotNeeds (lacking (V.shown view.now)) result }
    ensures told { TellsBeside (V.shown view.now) placed result }
    ensures near { NearBeside (V.shown view.now) placed result }
{
    match placed {
        Placed::Itself(ino) => Spot::Itself {
            ino,
            stat: info(alloc, fs, view, ino),
        },
        Placed::At { dir, name, ino } => {
            let parent = info(alloc, fs, view, dir);
            match ino {
                None => Spot::Missing { dir, name, parent },
                Some(ino) => Spot::Present {
                    dir,
                    name,
                    ino,
                    stat: info(alloc, fs, view, ino),
                    parent,
                },
            }
        }
    }
}

/// The place of a path, with what stat tells of the inodes beside it. Refused with `ENOTDIR`, `EACCES` or
/// `ENOENT` as the place is; what stat is refused with stands in the place.
pub fn place<F: FileSys, V: View>(
    alloc: Global,
    fs: &F,
    view: &V,
    seat: &Seat,
    path: &Path,
    walk: &PathWalk,
) -> Result<Spot, Halt>
    requires kept { IsKept (V.shown view.now) seat.now path.now walk.now }
    ensures wants { SpotWants (lacking (V.shown view.now)) result }
    ensures says { FindsSpot (V.shown view.now) seat.now path.now result }
    ensures near { NearSpot (V.shown view.now) seat.now path.now result }
{
    match placed(alloc, fs, view, seat, path, walk) {
        Ok(placed) => Ok(look_beside(alloc, fs, view, placed)),
        Err(stop) => Err(stop),
    }
}

/// How many slots of a directory are in use.
fn used_slots<F: FileSys, V: View>(alloc: Global, fs: &F, view: &V, ino: u16) -> Result<u32, Halt>
    ensures wants { Needs (lacking (V.shown view.now)) result }
    ensures says { TellsUsed (V.shown view.now) ino result }
    ensures near { NearInode (V.shown view.now) ino (λ tree. IsDirectoryAt tree.nodes ino) result }
{
    let query = Query::Used { ino };
    match fs.ask(alloc, view, &query) {
        Asked::Found(Answer::Used(count)) => Ok(count),
        Asked::Found(_) => Err(Halt::NoMemory),
        Asked::Refused(error) => Err(Halt::Refused(error)),
        Asked::Need(need) => Err(Halt::Need(need)),
        Asked::NoMemory => Err(Halt::NoMemory),
    }
}

/// How many slots are in use in the directory to which a name leads; of anything else it says nothing,
/// as the row looks at it for a directory alone.
fn used_beside<F: FileSys, V: View>(
    alloc: Global,
    fs: &F,
    view: &V,
    spot: &Spot,
) -> Result<u32, Halt>
    ensures wants { Needs (lacking (V.shown view.now)) result }
    ensures says { TellsUsedBy (V.shown view.now) spot.now result }
    ensures near { NearUsedBy (V.shown view.now) spot.now result }
{
    match spot {
        Spot::Present { ino, stat, .. } => match stat {
            Ok(stat) => {
                if is_directory(stat.mode) {
                    used_slots(alloc, fs, view, *ino)
                } else {
                    Err(Halt::NoMemory)
                }
            }
            Err(_) => Err(Halt::NoMemory),
        },
        _ => Err(Halt::NoMemory),
    }
}

/// How many slots are in use in the directory that is to be removed. Where the place was not found, or
/// is of no directory, it says nothing.
pub fn used<F: FileSys, V: View>(
    alloc: Global,
    fs: &F,
    view: &V,
    asked: &Result<Spot, Halt>,
) -> Result<u32, Halt>
    ensures wants { Needs (lacking (V.shown view.now)) result }
    ensures says { TellsUsedAt (V.shown view.now) asked.now result }
    ensures near { NearUsedAt (V.shown view.now) asked.now result }
{
    match asked {
        Ok(spot) => used_beside(alloc, fs, view, spot),
        Err(_) => Err(Halt::NoMemory),
    }
}

/// What a read of an open file gets: at most `count` bytes from its offset on.
pub fn bytes<F: FileSys, V: View>(
    alloc: Global,
    fs: &F,
    view: &V,
    file: PlainFile,
    count: u16,
) -> Result<Octets, Halt>
    ensures wants { Needs (lacking (V.shown view.now)) result }
    ensures says { TellsBytes (V.shown view.now) file count result }
    ensures near { NearInode (V.shown view.now) file.ino (λ tree. IsOpenable tree.nodes file.ino) result }
{
    let query = Query::Bytes {
        ino: file.ino,
        offset: file.offset,
        count,
    };
    match fs.ask(alloc, view, &query) {
        Asked::Found(Answer::Bytes(bytes)) => Ok(bytes),
        Asked::Found(_) => Err(Halt::NoMemory),
        Asked::Refused(error) => Err(Halt::Refused(error)),
        Asked::Need(need) => Err(Halt::Need(need)),
        Asked::NoMemory => Err(Halt::NoMemory),
    }
}
