ghost use Rattle.mb_iface.specs.Needs.{AsksFor};
ghost use Rattle.mb_iface.specs.OnVolumes.{OnVolumes};
ghost use Rattle.mb_iface.specs.Asking.{Finds};
ghost use Rattle.mb_iface.specs.declared.queries.Query.TheVariants as query;

use crate::components::first_component;
use crate::inodes::{Looked, info, stat_by};
use crate::lookups::{LookedUp, look_up};
use crate::searches::{Counted, count_used};
use mb_iface::{Answer, Asked, Changes, View};
use mb_kinds::{Cred, Errno, Path};
use mb_tree::start_of;
use std::alloc::Global;

/// Finds the inode to which a path leads (V7 namei): the answer to the query `Find`. It needs no
/// memory; with changes of none it reads the view as it is.
pub fn find<V: View>(alloc: Global, view: &V, cwd: u16, cred: Cred, path: &Path) -> Asked
    ensures need { AsksFor (V.shown view.now) result }
    ensures answer { OnVolumes (V.shown view.now) (λ image tree. Finds image tree (query.Find cwd cred path.now) result) }
{
    let none = Changes::new(alloc);
    let path = path.as_slice();
    let mut ino = start_of(cwd, path);
    let mut rest = path;
    'names: while let Some(first) = first_component(rest) {
        match look_up(view, &none, cred, ino, &first.name) {
            LookedUp::Number(next) => ino = next,
            LookedUp::Missing => return Asked::Refused(Errno::ENOENT),
            LookedUp::Refused(error) => return Asked::Refused(error),
            LookedUp::Need(need) => return Asked::Need(need),
        }
        rest = first.rest;
    }
    match info(view, &none, ino) {
        Looked::Inode(inode) => Asked::Found(Answer::Node(stat_by(ino, &inode))),
        Looked::Need(need) => Asked::Need(need),
    }
}

/// Finds the place of a path's last component (V7 namei): the answer to the query `Place`. What the
/// last component leads to is not looked at. It needs no memory. It stands in each of its callers, who
/// put the query together and take the answer apart.
#[inline(always)]
pub fn place<V: View>(alloc: Global, view: &V, cwd: u16, cred: Cred, path: &Path) -> Asked
    ensures need { AsksFor (V.shown view.now) result }
    ensures answer { OnVolumes (V.shown view.now) (λ image tree. Finds image tree (query.Place cwd cred path.now) result) }
{
    let none = Changes::new(alloc);
    let path = path.as_slice();
    let mut dir = start_of(cwd, path);
    let Some(mut here) = first_component(path) else {
        return Asked::Found(Answer::Itself(dir));
    };
    'names: while let Some(next) = first_component(here.rest) {
        match look_up(view, &none, cred, dir, &here.name) {
            LookedUp::Number(ino) => dir = ino,
            LookedUp::Missing => return Asked::Refused(Errno::ENOENT),
            LookedUp::Refused(error) => return Asked::Refused(error),
            LookedUp::Need(need) => return Asked::Need(need),
        }
        here = next;
    }
    let name = here.name;
    match look_up(view, &none, cred, dir, &name) {
        LookedUp::Number(ino) => Asked::Found(Answer::Place {
            dir,
            name,
            ino: Some(ino),
        }),
        LookedUp::Missing => Asked::Found(Answer::Place {
            dir,
            name,
            ino: None,
        }),
        LookedUp::Refused(error) => Asked::Refused(error),
        LookedUp::Need(need) => Asked::Need(need),
    }
}

/// What stat tells of an inode: the answer to the query `Info`. It needs no memory.
#[inline(always)]
pub fn info_of<V: View>(alloc: Global, view: &V, ino: u16) -> Asked
    ensures need { AsksFor (V.shown view.now) result }
    ensures answer { OnVolumes (V.shown view.now) (λ image tree. Finds image tree (query.Info ino) result) }
{
    match info(view, &Changes::new(alloc), ino) {
        Looked::Inode(inode) => Asked::Found(Answer::Node(stat_by(ino, &inode))),
        Looked::Need(need) => Asked::Need(need),
    }
}

/// How many slots of a directory are in use: the answer to the query `Used`. It needs no memory.
pub fn used<V: View>(alloc: Global, view: &V, ino: u16) -> Asked
    ensures need { AsksFor (V.shown view.now) result }
    ensures answer { OnVolumes (V.shown view.now) (λ image tree. Finds image tree (query.Used ino) result) }
{
    let none = Changes::new(alloc);
    let inode = match info(view, &none, ino) {
        Looked::Inode(inode) => inode,
        Looked::Need(need) => return Asked::Need(need),
    };
    match count_used(view, &none, ino, inode.size) {
        Counted::Used(count) => Asked::Found(Answer::Used(count)),
        Counted::Need(need) => Asked::Need(need),
    }
}
