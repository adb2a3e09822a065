use mb_kinds::{Entry, Errno, NoMemory, Reply};
use mb_tree::{Machine, Tree};
use std::alloc::Global;

/// Why an entry is not the model's.
#[derive(Debug, PartialEq, Drop)]
pub enum Cause {
    /// No caller has its number.
    Caller,
    /// Its picked number was not free, or no inode was made with it, or one is made where it has no number.
    Pick,
    /// The model answers this.
    Reply(Reply),
}

/// The first entry of a history that is not the model's, by its place from 0.
#[derive(Debug, PartialEq, Drop)]
pub struct Difference {
    pub at: usize,
    pub cause: Cause,
}

/// Whether an inode that is made may get a number.
fn is_free(tree: &Tree, ino: u16) -> bool {
    3 <= ino && ino <= tree.last && !tree.nodes.has(u32::from(ino))
}

/// The lowest number that an inode may get.
pub(crate) fn lowest_free(tree: &Tree) -> Option<u16> {
    for before in 2..tree.last {
        if is_free(tree, before + 1) {
            return Some(before + 1);
        }
    }
    None
}

/// Whether a fault or the disk ended a call, which then did nothing.
fn is_unserved(reply: &Reply) -> bool {
    matches!(
        reply,
        Reply::Restart { .. } | Reply::Device | Reply::Failed { .. }
    )
}

/// Whether a call without a number would make an inode if it had a free one.
fn wants_number(heap: Global, machine: &mut Machine, entry: &Entry) -> Result<bool, NoMemory> {
    let declared = usize::from(entry.caller) < machine.seats.len();
    if !declared || entry.reply != Reply::Refused(Errno::ENOSPC) {
        return Ok(false);
    }
    let Some(ino) = lowest_free(&machine.tree) else {
        return Ok(false);
    };
    let reply = machine.step(heap, entry.caller, &entry.call, entry.moment, Some(ino))?;
    Ok(reply != entry.reply)
}

/// Makes the step of an entry; why it is not the model's.
fn cause_of(heap: Global, machine: &mut Machine, entry: &Entry) -> Result<Option<Cause>, NoMemory> {
    if usize::from(entry.caller) >= machine.seats.len() {
        return Ok(Some(Cause::Caller));
    }
    if is_unserved(&entry.reply) {
        return Ok(entry.pick.map(|_| Cause::Pick));
    }
    let free = match entry.pick {
        Some(ino) => is_free(&machine.tree, ino),
        None => true,
    };
    if !free {
        return Ok(Some(Cause::Pick));
    }
    let reply = machine.step(heap, entry.caller, &entry.call, entry.moment, entry.pick)?;
    if reply != entry.reply {
        return Ok(Some(Cause::Reply(reply)));
    }
    let fits = match entry.pick {
        Some(ino) => machine.tree.nodes.has(u32::from(ino)),
        None => !wants_number(heap, machine, entry)?,
    };
    Ok(if fits { None } else { Some(Cause::Pick) })
}

/// Steps a machine through a history, entry by entry: the first one that is not the model's, with its cause. A call that a
/// fault or the disk ended is passed over. The machine is then the one after the entries before it, or after all of them;
/// after a difference nothing is said of it.
pub fn first_difference(
    heap: Global,
    machine: &mut Machine,
    history: &[Entry],
) -> Result<Option<Difference>, NoMemory> {
    for (at, entry) in history.iter().enumerate() {
        if let Some(cause) = cause_of(heap, machine, entry)? {
            return Ok(Some(Difference { at, cause }));
        }
    }
    Ok(None)
}
