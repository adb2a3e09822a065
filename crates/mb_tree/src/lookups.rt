ghost use Rattle.std.specs.Prelude.{◌≡◌, ◌==◌, ◌<◌, IfOk, map};
ghost use Rattle.std.specs.List.{slice_split};
ghost use Rattle.mb_tree.specs.Results.{Gives};
ghost use Rattle.mb_tree.specs.Lookup.{padded, components, start_of, is_named, number_of, look, enter, walk, stat_in, find_path, place_under, find_place, slash, number_in, used_in};

use crate::inodes::{is_used, may};
use crate::nodes::{Body, Nodes, PlainSlot};
use crate::stops::Stop;
use mb_kinds::{Cred, Errno, Name, Stat};
use std::alloc::{AllocError, Global};

/// Where a path leads when its last component is not looked up: to the directory and the name of that
/// component, with the number that the name leads to where it is there; or to the inode itself where
/// the path has no component.
#[derive(Clone, Copy, Debug, Drop)]
pub enum Placed {
    Itself(u16),
    At {
        dir: u16,
        name: Name,
        ino: Option<u16>,
    },
}

/// A component as a slot's name: its first 14 bytes, padded with 0.
fn padded(piece: &[u8]) -> Name
    ensures { result ≡ padded piece.now }
{
    let mut name = [0; 14];
    let most = piece.len().min(14);
    name[..most].copy_from_slice(&piece[..most]);
    name
}

/// What stands between the slashes of a path.
fn pieces<'a>(alloc: Global, path: &'a [u8]) -> Result<Vec<&'a [u8]>, AllocError>
    ensures { IfOk result (λ pieces. map (λ piece. piece.now) pieces.items ≡ slice_split (λ byte. byte == slash) path.now) }
{
    path.split(|byte| *byte == 47).collect(alloc)
}

/// The components of a path.
pub fn components(alloc: Global, path: &[u8]) -> Result<Vec<Name>, AllocError>
    ensures { IfOk result (λ names. names.items ≡ components path.now) }
{
    let pieces = pieces(alloc, path)?;
    let mut names = Vec::new(alloc);
    for piece in &pieces {
        if !piece.is_empty() {
            names.push(padded(piece))?;
        }
    }
    Ok(names)
}

/// Where a path starts: one that begins with a slash at the root, inode 2, and another at the current
/// directory.
pub fn start_of(cwd: u16, path: &[u8]) -> u16
    ensures { result ≡ start_of cwd path.now }
{
    if path.first() == Some(&47) { 2 } else { cwd }
}

/// Whether a slot is in use and has that name.
pub fn is_named(name: &Name, slot: &PlainSlot) -> bool
    ensures { result ≡ is_named name.now slot.now }
{
    is_used(slot) && slot.name == *name
}

/// The number that a name leads to.
pub fn number_of(slots: &[PlainSlot], name: &Name) -> Option<u16>
    ensures { result ≡ number_of slots.now name.now }
{
    slots
        .iter()
        .find(|slot| is_named(name, slot))
        .map(|slot| slot.ino)
}

/// The number that a name leads to in a directory, where the inode is one.
pub fn number_in(nodes: &Nodes, dir: u16, name: &Name) -> Option<u16>
    ensures { result ≡ number_in nodes.now dir name.now }
{
    match nodes.get(u32::from(dir)) {
        Some(node) => match &node.body {
            Body::Directory { slots } => number_of(slots.as_slice(), name),
            _ => None,
        },
        None => None,
    }
}

/// How many used slots an inode has; none where it is no directory.
pub fn used_in(nodes: &Nodes, ino: u16) -> usize
    ensures { result ≡ used_in nodes.now ino }
{
    match nodes.get(u32::from(ino)) {
        Some(node) => match &node.body {
            Body::Directory { slots } => slots
                .as_slice()
                .iter()
                .filter(|slot| is_used(slot))
                .count(),
            _ => 0,
        },
        None => 0,
    }
}

/// The number that a name leads to in a directory that the caller may search.
fn look(nodes: &Nodes, cred: Cred, dir: u16, name: &Name) -> Result<Option<u16>, Errno>
    ensures { result ≡ look nodes.now cred dir name.now }
{
    let Some(node) = nodes.get(u32::from(dir)) else {
        return Err(Errno::ENOTDIR);
    };
    let Body::Directory { slots } = &node.body else {
        return Err(Errno::ENOTDIR);
    };
    if !may(cred, &node.stat(dir), 1) {
        return Err(Errno::EACCES);
    }
    Ok(number_of(slots.as_slice(), name))
}

/// One component further.
fn enter(nodes: &Nodes, cred: Cred, dir: u16, name: &Name) -> Result<u16, Errno>
    ensures { result ≡ enter nodes.now cred dir name.now }
{
    match look(nodes, cred, dir, name) {
        Ok(Some(ino)) => Ok(ino),
        Ok(None) => Err(Errno::ENOENT),
        Err(error) => Err(error),
    }
}

/// Component after component.
fn walk(nodes: &Nodes, cred: Cred, start: u16, names: &[Name]) -> Result<u16, Errno>
    ensures { result ≡ walk nodes.now cred start names.now }
{
    let Some((name, rest)) = names.split_first() else {
        return Ok(start);
    };
    match enter(nodes, cred, start, name) {
        Ok(next) => walk(nodes, cred, next, rest),
        Err(error) => Err(error),
    }
}

/// What stat tells of the inode with a number.
pub fn stat_in(nodes: &Nodes, ino: u16) -> Result<Stat, Errno>
    ensures { result ≡ stat_in nodes.now ino }
{
    match nodes.get(u32::from(ino)) {
        Some(node) => Ok(node.stat(ino)),
        None => Err(Errno::ENOENT),
    }
}

/// The inode to which a path leads.
pub fn find_path(
    alloc: Global,
    nodes: &Nodes,
    cred: Cred,
    cwd: u16,
    path: &[u8],
) -> Result<Stat, Stop>
    ensures { Gives (λ stat. stat) result (find_path nodes.now cred cwd path.now) }
{
    let names = components(alloc, path)?;
    let ino = walk(nodes, cred, start_of(cwd, path), &names)?;
    let stat = stat_in(nodes, ino)?;
    Ok(stat)
}

/// The place of components from a start on.
fn place_under(nodes: &Nodes, cred: Cred, start: u16, names: &[Name]) -> Result<Placed, Errno>
    ensures { result ≡ place_under nodes.now cred start names.now }
{
    let Some((name, before)) = names.split_last() else {
        return Ok(Placed::Itself(start));
    };
    let dir = match walk(nodes, cred, start, before) {
        Ok(dir) => dir,
        Err(error) => return Err(error),
    };
    match look(nodes, cred, dir, name) {
        Ok(ino) => Ok(Placed::At {
            dir,
            name: *name,
            ino,
        }),
        Err(error) => Err(error),
    }
}

/// The place of a path.
pub fn find_place(
    alloc: Global,
    nodes: &Nodes,
    cred: Cred,
    cwd: u16,
    path: &[u8],
) -> Result<Placed, Stop>
    ensures { Gives (λ placed. placed) result (find_place nodes.now cred cwd path.now) }
{
    let names = components(alloc, path)?;
    let placed = place_under(nodes, cred, start_of(cwd, path), &names)?;
    Ok(placed)
}
