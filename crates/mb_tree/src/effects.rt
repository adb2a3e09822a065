ghost use Rattle.std.specs.Prelude.{◌≡◌, ◌<◌, ◌≤◌, ◌+◌, ◌^◌, ◌-◌, ◌&&◌, IfOk, OnOk, length, count_by, nat_eq, Some, None, Ok};
ghost use Rattle.std.specs.FinMap as fin;
ghost use Rattle.mb_tree.specs.Maps.{changed_at};
ghost use Rattle.mb_tree.specs.Results.{Gives, GivesTree};
ghost use Rattle.mb_tree.specs.Step.{effect_of};
ghost use Rattle.mb_tree.specs.Lookup.{number_in};
ghost use Rattle.mb_tree.specs.Sessions.{counts};
ghost use Rattle.mb_tree.specs.Changes.{changed_by, HasLinkRoom, fields_after};
ghost use Rattle.mb_tree.specs.Effect.{wrote, nlink_in, fitting, is_lost, less_name, less_open, release, create, empty, make_dir, remove_dir, enlink, delink, put, set_mode, set_owner, set_times, tree_after};

use crate::changes::{self, Change};
use crate::costs::cost;
use crate::inodes::{DIRECTORY, REGULAR};
use crate::lookups::number_in;
use crate::maps::{Copied, Map};
use crate::nodes::{Body, Node, Nodes};
use crate::operations::FsOp;
use crate::seats::{Seat, count};
use crate::stops::Stop;
use crate::trees::Tree;
use mb_kinds::{Errno, Name};
use std::alloc::{AllocError, Global};

/// The greatest link count, which is this project's choice.
const LINKS: u16 = 32767;
/// The greatest size of a file in bytes.
const BYTES: u32 = 1_082_201_088;

/// The link count of the inode with a number, 0 where there is none.
fn nlink_in(nodes: &Nodes, ino: u16) -> u16
    ensures { result ≡ nlink_in nodes.now ino }
{
    match nodes.get(u32::from(ino)) {
        Some(node) => node.nlink,
        None => 0,
    }
}

/// The nodes, where the files then hold no more blocks than there are for them.
fn fitting(alloc: Global, tree: &Tree, nodes: Nodes) -> Result<Nodes, Stop>
    ensures { Gives (λ nodes. record tree.now { nodes = nodes }) result (fitting tree.now nodes) }
{
    let cost = cost(alloc, &nodes, tree.last)?;
    if cost > u128::from(tree.cap) {
        return Err(Stop::Refused(Errno::ENOSPC));
    }
    Ok(nodes)
}

/// One inode changed, where it is there.
#[tactic(auto, using(crate::proofs::Changed::rechanged, crate::proofs::Changed::unchanged))]
fn change(
    alloc: Global,
    nodes: &mut Nodes,
    ino: u16,
    change: Change,
    moment: u32,
) -> Result<(), AllocError>
    requires { HasLinkRoom change (nlink_in nodes.old ino) }
    ensures { OnOk result (nodes.new ≡ changed_at nodes.old ino (changed_by change moment)) }
{
    let Some(node) = nodes.remove(u32::from(ino)) else {
        return Ok(());
    };
    nodes.insert(
        u32::from(ino),
        changes::changed(alloc, node, change, moment)?,
    )
}

/// The nodes with one inode changed.
fn with_change(
    alloc: Global,
    tree: &Tree,
    ino: u16,
    made: Change,
    moment: u32,
) -> Result<Nodes, AllocError>
    requires { HasLinkRoom made (nlink_in tree.now.nodes ino) }
    ensures { IfOk result (λ nodes. nodes ≡ changed_at tree.now.nodes ino (changed_by made moment)) }
{
    let mut nodes = tree.nodes.copied(alloc)?;
    change(alloc, &mut nodes, ino, made, moment)?;
    Ok(nodes)
}

/// Whether an inode is nameless and not open.
fn is_unheld(node: &Node, seats: &[Seat], ino: u16) -> bool
    ensures { result ≡ (nat_eq node.now.nlink 0 && nat_eq (counts seats.now ino) 0) }
{
    node.nlink == 0 && count(seats, ino) == 0
}

/// An inode that lost a name, dropped where it is nameless and not open.
fn less_name(nodes: &mut Nodes, seats: &[Seat], moment: u32, ino: u16) -> Result<(), AllocError>
    ensures { OnOk result (nodes.new ≡ less_name nodes.old (counts seats.now) moment ino) }
{
    let key = u32::from(ino);
    let Some(node) = nodes.remove(key) else {
        return Ok(());
    };
    let node = changes::unlinked(node, moment);
    if is_unheld(&node, seats, ino) {
        return Ok(());
    }
    nodes.insert(key, node)?;
    Ok(())
}

#[tactic(auto, using(crate::proofs::Changed::rechanged, crate::proofs::Changed::unchanged))]
fn write(
    nodes: &mut Nodes,
    ino: u16,
    moment: u32,
    offset: u32,
    bytes: &[u8],
) -> Result<(), AllocError>
    requires { offset + length bytes.now < 2 ^ 32 }
    ensures { OnOk result (nodes.new ≡ changed_at nodes.old ino (wrote moment offset bytes.now)) }
{
    let Some(node) = nodes.remove(u32::from(ino)) else {
        return Ok(());
    };
    nodes.insert(u32::from(ino), changes::wrote(node, moment, offset, bytes)?)
}

fn create(
    alloc: Global,
    tree: &Tree,
    dir: u16,
    name: Name,
    mode: u16,
    uid: u16,
    gid: u16,
    moment: u32,
    pick: Option<u16>,
) -> Result<Nodes, Stop>
    ensures { Gives (λ nodes. record tree.now { nodes = nodes }) result (create tree.now dir name mode uid gid moment pick) }
{
    let Some(ino) = pick else {
        return Err(Stop::Refused(Errno::ENOSPC));
    };
    let body = Body::Regular {
        size: 0,
        parts: Map::new(alloc),
    };
    let mut nodes = with_change(alloc, tree, dir, Change::Enter { name, ino }, moment)?;
    nodes.insert(
        u32::from(ino),
        changes::made(REGULAR | mode, 1, uid, gid, moment, body),
    )?;
    fitting(alloc, tree, nodes)
}

fn make_dir(
    alloc: Global,
    tree: &Tree,
    dir: u16,
    name: Name,
    mode: u16,
    uid: u16,
    gid: u16,
    moment: u32,
    pick: Option<u16>,
) -> Result<Nodes, Stop>
    ensures { Gives (λ nodes. record tree.now { nodes = nodes }) result (make_dir tree.now dir name mode uid gid moment pick) }
{
    if nlink_in(&tree.nodes, dir) >= LINKS {
        return Err(Stop::Refused(Errno::EMLINK));
    }
    let Some(ino) = pick else {
        return Err(Stop::Refused(Errno::ENOSPC));
    };
    let body = Body::Directory {
        slots: changes::first_slots(alloc, ino, dir)?,
    };
    let mut nodes = with_change(alloc, tree, dir, Change::EnterDir { name, ino }, moment)?;
    nodes.insert(
        u32::from(ino),
        changes::made(DIRECTORY | mode, 2, uid, gid, moment, body),
    )?;
    fitting(alloc, tree, nodes)
}

fn remove_dir(
    alloc: Global,
    tree: &Tree,
    dir: u16,
    name: &Name,
    moment: u32,
) -> Result<Nodes, AllocError>
    ensures { IfOk result (λ nodes. remove_dir tree.now dir name.now moment (number_in tree.now.nodes dir name.now) ≡ record tree.now { nodes = nodes }) }
{
    let mut nodes = tree.nodes.copied(alloc)?;
    let Some(ino) = number_in(&tree.nodes, dir, name) else {
        return Ok(nodes);
    };
    let _node = nodes.remove(u32::from(ino));
    change(
        alloc,
        &mut nodes,
        dir,
        Change::LeaveDir { name: *name },
        moment,
    )?;
    Ok(nodes)
}

fn enlink(
    alloc: Global,
    tree: &Tree,
    dir: u16,
    name: Name,
    ino: u16,
    moment: u32,
) -> Result<Nodes, Stop>
    ensures { Gives (λ nodes. record tree.now { nodes = nodes }) result (enlink tree.now dir name ino moment) }
{
    if nlink_in(&tree.nodes, ino) >= LINKS {
        return Err(Stop::Refused(Errno::EMLINK));
    }
    let mut nodes = with_change(alloc, tree, ino, Change::Link, moment)?;
    change(alloc, &mut nodes, dir, Change::Enter { name, ino }, moment)?;
    fitting(alloc, tree, nodes)
}

fn delink(
    alloc: Global,
    tree: &Tree,
    seats: &[Seat],
    dir: u16,
    name: &Name,
    moment: u32,
) -> Result<Nodes, AllocError>
    ensures { IfOk result (λ nodes. delink tree.now (counts seats.now) dir name.now moment (number_in tree.now.nodes dir name.now) ≡ record tree.now { nodes = nodes }) }
{
    let mut nodes = tree.nodes.copied(alloc)?;
    let Some(ino) = number_in(&tree.nodes, dir, name) else {
        return Ok(nodes);
    };
    change(
        alloc,
        &mut nodes,
        dir,
        Change::Leave { name: *name },
        moment,
    )?;
    less_name(&mut nodes, seats, moment, ino)?;
    Ok(nodes)
}

fn put(
    alloc: Global,
    tree: &Tree,
    ino: u16,
    offset: u32,
    bytes: &[u8],
    moment: u32,
) -> Result<Nodes, Stop>
    requires { length bytes.now ≤ 65535 }
    ensures { Gives (λ nodes. record tree.now { nodes = nodes }) result (put tree.now ino offset bytes.now moment) }
{
    if u64::from(offset) + bytes.len() as u64 > u64::from(BYTES) {
        return Err(Stop::Refused(Errno::EFBIG));
    }
    let mut nodes = tree.nodes.copied(alloc)?;
    write(&mut nodes, ino, moment, offset, bytes)?;
    fitting(alloc, tree, nodes)
}

/// How often a number stands in a list.
fn occurrences(inos: &[u16], ino: u16) -> usize
    ensures { result ≡ count_by (nat_eq ino) inos.now }
{
    inos.iter().filter(|other| ino == **other).count()
}

/// Whether the inode with a number is nameless and not open once these are released.
fn is_lost(nodes: &Nodes, seats: &[Seat], inos: &[u16], ino: u16) -> bool
    ensures { result ≡ is_lost (release (counts seats.now) inos.now) ino (fin.get nodes.now ino) }
{
    match nodes.get(u32::from(ino)) {
        Some(node) => node.nlink == 0
            && count(seats, ino).saturating_sub(occurrences(inos, ino) as u128) == 0,
        None => false,
    }
}

fn less_open(alloc: Global, tree: &Tree, seats: &[Seat], inos: &[u16]) -> Result<Nodes, AllocError>
    ensures { IfOk result (λ nodes. nodes ≡ less_open tree.now.nodes (release (counts seats.now) inos.now) inos.now) }
{
    let mut nodes = tree.nodes.copied(alloc)?;
    for ino in inos {
        if !is_lost(&tree.nodes, seats, inos, *ino) {
            continue;
        }
        let _node = nodes.remove(u32::from(*ino));
    }
    Ok(nodes)
}

/// The nodes after an operation that drops bytes or sets fields of one inode; another one leaves them.
fn fields_after(alloc: Global, tree: &Tree, op: &FsOp) -> Result<Nodes, Stop>
    ensures { Gives (λ nodes. record tree.now { nodes = nodes }) result (Ok (fields_after tree.now op.now)) }
{
    match op {
        FsOp::Empty { ino, moment } => {
            let nodes = with_change(alloc, tree, *ino, Change::Blank, *moment)?;
            Ok(nodes)
        }
        FsOp::SetMode { ino, mode, moment } => {
            let nodes = with_change(alloc, tree, *ino, Change::Mode { mode: *mode }, *moment)?;
            Ok(nodes)
        }
        FsOp::SetOwner {
            ino,
            uid,
            gid,
            moment,
        } => {
            let owner = Change::Owner {
                uid: *uid,
                gid: *gid,
            };
            let nodes = with_change(alloc, tree, *ino, owner, *moment)?;
            Ok(nodes)
        }
        FsOp::SetTimes {
            ino,
            atime,
            mtime,
            moment,
        } => {
            let times = Change::Times {
                atime: *atime,
                mtime: *mtime,
            };
            let nodes = with_change(alloc, tree, *ino, times, *moment)?;
            Ok(nodes)
        }
        _ => {
            let nodes = tree.nodes.copied(alloc)?;
            Ok(nodes)
        }
    }
}

/// The nodes after an operation.
fn nodes_after(
    alloc: Global,
    tree: &Tree,
    seats: &[Seat],
    op: &FsOp,
    pick: Option<u16>,
) -> Result<Nodes, Stop>
    ensures { Gives (λ nodes. record tree.now { nodes = nodes }) result (tree_after tree.now (counts seats.now) op.now pick) }
{
    match op {
        FsOp::Create {
            dir,
            name,
            mode,
            uid,
            gid,
            moment,
        } => create(alloc, tree, *dir, *name, *mode, *uid, *gid, *moment, pick),
        FsOp::Empty { .. } => fields_after(alloc, tree, op),
        FsOp::MakeDir {
            dir,
            name,
            mode,
            uid,
            gid,
            moment,
        } => make_dir(alloc, tree, *dir, *name, *mode, *uid, *gid, *moment, pick),
        FsOp::RemoveDir { dir, name, moment } => {
            let nodes = remove_dir(alloc, tree, *dir, name, *moment)?;
            Ok(nodes)
        }
        FsOp::Enlink {
            dir,
            name,
            ino,
            moment,
        } => enlink(alloc, tree, *dir, *name, *ino, *moment),
        FsOp::Delink { dir, name, moment } => {
            let nodes = delink(alloc, tree, seats, *dir, name, *moment)?;
            Ok(nodes)
        }
        FsOp::Put {
            ino,
            offset,
            bytes,
            moment,
        } => put(alloc, tree, *ino, *offset, bytes.as_slice(), *moment),
        FsOp::SetMode { .. } => fields_after(alloc, tree, op),
        FsOp::SetOwner { .. } => fields_after(alloc, tree, op),
        FsOp::SetTimes { .. } => fields_after(alloc, tree, op),
        FsOp::Hold { .. } => fields_after(alloc, tree, op),
        FsOp::Release { inos } => {
            let nodes = less_open(alloc, tree, seats, inos.as_slice())?;
            Ok(nodes)
        }
    }
}

/// Does one operation or none, all of it or nothing.
pub fn act(
    alloc: Global,
    tree: &mut Tree,
    seats: &[Seat],
    op: &Option<FsOp>,
    pick: Option<u16>,
) -> Result<(), Stop>
    ensures { GivesTree result tree.old tree.new (effect_of tree.old (counts seats.now) op.now pick) }
{
    let Some(op) = op else {
        return Ok(());
    };
    let nodes = nodes_after(alloc, tree, seats, op, pick)?;
    tree.nodes = nodes;
    Ok(())
}
