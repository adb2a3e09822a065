ghost use Rattle.std.specs.Prelude.{◌≡◌, ◌≤◌, ◌-◌, IfOk, IfSome, None, drop, length, take};
ghost use Rattle.mb_calls.specs.Asks.{FindsInode, FindsPlace, NearFrom, NearWay, PlacesFrom};
ghost use Rattle.mb_calls.specs.Following.{BeginsPaths, BeginsWalk, IsAhead, IsCut, IsKept, LacksOnWay, StepsOn, led_by};
ghost use Rattle.mb_calls.specs.Halts.{Needs};
ghost use Rattle.mb_calls.specs.Halts.Scope.{lacking};

use crate::asks::info;
use crate::halts::Halt;
use mb_iface::{Answer, Asked, FileSys, Need, Query, View};
use mb_kinds::{Cred, Errno, Path, Stat};
use mb_tree::{Placed, Seat, is_directory};
use std::alloc::{AllocError, Global};

/// What the next component of a path leads to.
#[derive(Clone, Copy, Debug, Drop)]
pub struct Ahead {
    /// The number of the inode.
    pub ino: u16,
    /// The index of the first byte behind the component and its slash.
    pub next: usize,
}

/// How far a path has been followed: a directory on its way, and where in the path the rest begins.
#[derive(Clone, Copy, Debug, Drop)]
pub struct PathWalk {
    /// The number of the directory.
    pub dir: u16,
    /// The index of the first byte of the rest.
    pub from: usize,
    /// What the next component leads to, once it was found and while its inode is to be looked at.
    pub ahead: Option<Ahead>,
    /// The place of the path, once it was found.
    pub end: Option<Placed>,
}

/// The walks of a call's paths; only link(2) has a second one.
#[derive(Clone, Copy, Debug, Drop)]
pub struct PathWalks {
    pub first: PathWalk,
    pub second: PathWalk,
}

/// One component of a walk.
#[derive(Clone, Copy, Debug, Drop)]
pub(crate) enum Stepped {
    /// It leads to a directory.
    On(PathWalk),
    /// The view lacks these blocks for it.
    Need(Need),
    /// It leads to no directory, or is refused, or met want of memory.
    Stopped,
}

/// The walks of a call that begins.
pub fn set_out(seat: &Seat) -> PathWalks
    ensures { BeginsPaths seat.now result }
{
    PathWalks {
        first: begin(seat),
        second: begin(seat),
    }
}

/// Where a path begins.
pub fn begin(seat: &Seat) -> PathWalk
    ensures { BeginsWalk seat.now result }
{
    PathWalk {
        dir: seat.cwd,
        from: 0,
        ahead: None,
        end: None,
    }
}

/// Where the component after the next one begins, from an index on; `None` in the last component, and
/// wherever a look at the whole rest serves as well.
pub(crate) fn cut(path: &[u8], from: usize) -> Option<usize>
    ensures { IfSome result (λ next. IsCut path.now from next) }
{
    for at in from.saturating_add(2)..path.len() {
        if path[at - 1] == b'/' && path[at] != b'/' {
            return Some(at);
        }
    }
    None
}

/// A part of a path.
fn piece(alloc: Global, path: &Path, from: usize, to: usize) -> Result<Path, AllocError>
    requires order { from ≤ to }
    requires within { to ≤ length path.now }
    ensures { IfOk result (λ piece. piece ≡ take (to - from) (drop from path.now)) }
{
    let bytes = Vec::from_slice(alloc, &path.as_slice()[from..to])?;
    Ok(Path::from_vec(bytes))
}

/// The rest of a path.
fn rest_of(alloc: Global, path: &Path, from: usize) -> Result<Path, AllocError>
    requires { from ≤ length path.now }
    ensures { IfOk result (λ rest. rest ≡ drop from path.now) }
{
    let bytes = Vec::from_slice(alloc, &path.as_slice()[from..])?;
    Ok(Path::from_vec(bytes))
}

/// The inode to which a place leads.
fn led_by(placed: Placed) -> Option<u16>
    ensures { result ≡ led_by placed }
{
    match placed {
        Placed::Itself(ino) => Some(ino),
        Placed::At { ino, .. } => ino,
    }
}

/// Finds what the next component leads to, with another one that begins at `next`, and keeps it. It tells
/// which blocks the view lacks for that.
fn look_ahead<F: FileSys, V: View>(
    alloc: Global,
    fs: &F,
    view: &V,
    seat: &Seat,
    path: &Path,
    walk: &mut PathWalk,
    next: usize,
) -> Option<Need>
    requires kept { IsKept (V.shown view.now) seat.now path.now walk.old }
    requires cut { IsCut path.now walk.old.from next }
    ensures kept { IsKept (V.shown view.now) seat.now path.now walk.new }
    ensures lacking { IfSome result (LacksOnWay (V.shown view.now) seat.now path.now) }
{
    let Ok(head) = piece(alloc, path, walk.from, next - 1) else {
        return None;
    };
    match place_at(alloc, fs, view, walk.dir, seat.cred, head) {
        Ok(placed) => {
            if let Some(ino) = led_by(placed) {
                walk.ahead = Some(Ahead { ino, next });
            }
            None
        }
        Err(Halt::Need(need)) => Some(need),
        Err(_) => None,
    }
}

/// One component further, to the directory that it leads to.
fn step<F: FileSys, V: View>(
    alloc: Global,
    fs: &F,
    view: &V,
    seat: &Seat,
    path: &Path,
    walk: PathWalk,
    ahead: Ahead,
) -> Stepped
    requires kept { IsKept (V.shown view.now) seat.now path.now walk }
    requires ahead { IsAhead (V.shown view.now) seat.now path.now walk.dir walk.from ahead }
    ensures { StepsOn (V.shown view.now) seat.now path.now result }
{
    match info(alloc, fs, view, ahead.ino) {
        Ok(stat) => {
            if is_directory(stat.mode) {
                Stepped::On(PathWalk {
                    dir: stat.ino,
                    from: ahead.next,
                    ahead: None,
                    end: None,
                })
            } else {
                Stepped::Stopped
            }
        }
        Err(stop) => match stop {
            Halt::Need(need) => Stepped::Need(need),
            _ => Stepped::Stopped,
        },
    }
}

/// Follows a path to the directory of its last component, as far as the view has the blocks: it tells which
/// ones it lacks for the next component. What stops it else is found again when the rest is asked for in its
/// turn.
pub(crate) fn follow<F: FileSys, V: View>(
    alloc: Global,
    fs: &F,
    view: &V,
    seat: &Seat,
    path: &Path,
    walk: &mut PathWalk,
) -> Option<Need>
    requires kept { IsKept (V.shown view.now) seat.now path.now walk.old }
    ensures kept { IsKept (V.shown view.now) seat.now path.now walk.new }
    ensures lacking { IfSome result (LacksOnWay (V.shown view.now) seat.now path.now) }
{
    for _ in 0..path.as_slice().len() {
        if walk.ahead.is_none() {
            let Some(next) = cut(path.as_slice(), walk.from) else {
                return None;
            };
            let need = look_ahead(alloc, fs, view, seat, path, walk, next);
            if need.is_some() {
                return need;
            }
        }
        let Some(ahead) = walk.ahead else {
            return None;
        };
        match step(alloc, fs, view, seat, path, *walk, ahead) {
            Stepped::On(further) => *walk = further,
            Stepped::Need(need) => return Some(need),
            Stepped::Stopped => return None,
        }
    }
    None
}

/// The place of a path from a directory. It stands in each of its callers, as the query does that it asks.
#[inline(always)]
fn place_at<F: FileSys, V: View>(
    alloc: Global,
    fs: &F,
    view: &V,
    dir: u16,
    cred: Cred,
    path: Path,
) -> Result<Placed, Halt>
    ensures wants { Needs (lacking (V.shown view.now)) result }
    ensures says { PlacesFrom (V.shown view.now) cred dir path result }
    ensures near { NearFrom (V.shown view.now) cred dir path result }
{
    let query = Query::Place {
        cwd: dir,
        cred,
        path,
    };
    match fs.ask(alloc, view, &query) {
        Asked::Found(Answer::Itself(ino)) => Ok(Placed::Itself(ino)),
        Asked::Found(Answer::Place { dir, name, ino }) => Ok(Placed::At { dir, name, ino }),
        Asked::Found(_) => Err(Halt::NoMemory),
        Asked::Refused(error) => Err(Halt::Refused(error)),
        Asked::Need(need) => Err(Halt::Need(need)),
        Asked::NoMemory => Err(Halt::NoMemory),
    }
}

/// The inode to which a path leads, by the place of its rest.
pub fn find_rest<F: FileSys, V: View>(
    alloc: Global,
    fs: &F,
    view: &V,
    seat: &Seat,
    path: &Path,
    walk: &PathWalk,
) -> Result<Stat, Halt>
    requires kept { IsKept (V.shown view.now) seat.now path.now walk.now }
    ensures wants { Needs (lacking (V.shown view.now)) result }
    ensures says { FindsInode (V.shown view.now) seat.now path.now result }
    ensures near { NearWay (V.shown view.now) seat.now path.now result }
{
    match place_rest(alloc, fs, view, seat, path, walk) {
        Ok(placed) => match led_by(placed) {
            Some(ino) => info(alloc, fs, view, ino),
            None => Err(Halt::Refused(Errno::ENOENT)),
        },
        Err(stop) => Err(stop),
    }
}

/// The place of a path that was found, or else by the rest of its walk.
pub fn place_rest<F: FileSys, V: View>(
    alloc: Global,
    fs: &F,
    view: &V,
    seat: &Seat,
    path: &Path,
    walk: &PathWalk,
) -> Result<Placed, Halt>
    requires kept { IsKept (V.shown view.now) seat.now path.now walk.now }
    ensures wants { Needs (lacking (V.shown view.now)) result }
    ensures says { FindsPlace (V.shown view.now) seat.now path.now result }
    ensures near { NearWay (V.shown view.now) seat.now path.now result }
{
    if let Some(placed) = walk.end {
        return Ok(placed);
    }
    let rest = rest_of(alloc, path, walk.from)?;
    place_at(alloc, fs, view, walk.dir, seat.cred, rest)
}

/// Finds the place of a path by the rest of its walk, and keeps it, or tells which blocks the view lacks for
/// it; what refuses it is found again when the place is asked for in its turn.
pub(crate) fn find_place<F: FileSys, V: View>(
    alloc: Global,
    fs: &F,
    view: &V,
    seat: &Seat,
    path: &Path,
    walk: &mut PathWalk,
) -> Option<Need>
    requires kept { IsKept (V.shown view.now) seat.now path.now walk.old }
    ensures kept { IsKept (V.shown view.now) seat.now path.now walk.new }
    ensures lacking { IfSome result (LacksOnWay (V.shown view.now) seat.now path.now) }
{
    match place_rest(alloc, fs, view, seat, path, walk) {
        Ok(placed) => {
            walk.end = Some(placed);
            None
        }
        Err(Halt::Need(need)) => Some(need),
        Err(_) => None,
    }
}
