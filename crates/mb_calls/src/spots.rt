ghost use Rattle.std.specs.Prelude.{◌≡◌, ◌==◌, IfOk, Some};
ghost use Rattle.std.specs.List.{list_any};
ghost use Rattle.mb_tree.specs.Rows.{creat_at, link_at, mkdir_at, unlink_at};
ghost use Rattle.mb_tree.specs.Plans.{IsPlanFor};
ghost use Rattle.mb_calls.specs.Continuing.{busy_by, ContinuesLink, ContinuesRemoval, ContinuesSpot};

use crate::decisions::{
    creat_asked, create_asked, link_asked, mkdir_asked, rmdir_asked, unlink_asked,
};
use crate::halts::Halt;
use mb_iface::Opens;
use mb_kinds::{Errno, Name, Stat};
use mb_tree::{CallPlan, Seat, is_current, is_directory};

/// The place of a path, with what stat tells of the inodes beside it, or why it does not.
#[derive(Clone, Copy, Debug, Drop)]
pub enum Spot {
    /// The path leads to its start.
    Itself {
        ino: u16,
        stat: Result<Stat, Halt>,
    },
    /// A name that is missing in a directory.
    Missing {
        dir: u16,
        name: Name,
        parent: Result<Stat, Halt>,
    },
    /// A name in a directory, and the inode to which it leads.
    Present {
        dir: u16,
        name: Name,
        ino: u16,
        stat: Result<Stat, Halt>,
        parent: Result<Stat, Halt>,
    },
}

/// creat(2).
pub fn creat_spot(
    seat: &Seat,
    mode: u16,
    moment: u32,
    asked: Result<Spot, Halt>,
) -> Result<CallPlan, Halt>
    ensures follows { ContinuesSpot asked result (λ nodes. creat_at nodes seat.now mode moment (Some 0)) }
    ensures ready { IfOk result (λ plan. IsPlanFor seat.now plan) }
{
    match asked? {
        Spot::Itself { ino, stat } => creat_asked(seat, moment, ino, stat),
        Spot::Present { ino, stat, .. } => creat_asked(seat, moment, ino, stat),
        Spot::Missing { dir, name, parent } => create_asked(seat, mode, moment, dir, name, parent),
    }
}

/// mkdir(1) in one step.
pub fn mkdir_spot(
    seat: &Seat,
    mode: u16,
    moment: u32,
    asked: Result<Spot, Halt>,
) -> Result<CallPlan, Halt>
    ensures follows { ContinuesSpot asked result (λ nodes. mkdir_at nodes seat.now mode moment) }
    ensures ready { IfOk result (λ plan. IsPlanFor seat.now plan) }
{
    match asked? {
        Spot::Missing { dir, name, parent } => mkdir_asked(seat, mode, moment, dir, name, parent),
        _ => Err(Halt::Refused(Errno::EEXIST)),
    }
}

/// unlink(2).
pub fn unlink_spot(seat: &Seat, moment: u32, asked: Result<Spot, Halt>) -> Result<CallPlan, Halt>
    ensures follows { ContinuesSpot asked result (λ nodes. unlink_at nodes seat.now moment) }
    ensures ready { IfOk result (λ plan. IsPlanFor seat.now plan) }
{
    match asked? {
        Spot::Itself { .. } => Err(Halt::Refused(Errno::EPERM)),
        Spot::Missing { .. } => Err(Halt::Refused(Errno::ENOENT)),
        Spot::Present {
            dir,
            name,
            stat,
            parent,
            ..
        } => unlink_asked(seat, moment, dir, name, stat, parent),
    }
}

fn enlink_spot(
    seat: &Seat,
    moment: u32,
    ino: u16,
    asked: Result<Spot, Halt>,
) -> Result<CallPlan, Halt>
    ensures follows { ContinuesSpot asked result (λ nodes. link_at nodes seat.now moment ino) }
    ensures ready { IfOk result (λ plan. IsPlanFor seat.now plan) }
{
    match asked? {
        Spot::Missing { dir, name, parent } => link_asked(seat, moment, dir, name, ino, parent),
        _ => Err(Halt::Refused(Errno::EEXIST)),
    }
}

/// link(2).
pub fn link_spot(
    seat: &Seat,
    moment: u32,
    asked: Result<Stat, Halt>,
    spot: Result<Spot, Halt>,
) -> Result<CallPlan, Halt>
    ensures follows { ContinuesLink seat.now moment asked spot result }
    ensures ready { IfOk result (λ plan. IsPlanFor seat.now plan) }
{
    let stat = asked?;
    if is_directory(stat.mode) {
        return Err(Halt::Refused(Errno::EPERM));
    }
    enlink_spot(seat, moment, stat.ino, spot)
}

/// Whether a directory is the root, open, or a caller's current directory.
fn is_busy(opens: &Opens, seats: &[Seat], ino: u16) -> bool
    ensures { result ≡ busy_by opens.now seats.now ino }
{
    ino == 2 || opens.count(ino) > 0 || is_current(seats, ino)
}

/// rmdir(1) in one step; `used` says how many slots of the directory are in use. Of other callers it sees
/// whether the directory is in use. A path without components is refused with `EBUSY`.
pub fn rmdir_spot(
    opens: &Opens,
    seats: &[Seat],
    seat: &Seat,
    moment: u32,
    asked: Result<Spot, Halt>,
    used: Result<u32, Halt>,
) -> Result<CallPlan, Halt>
    ensures follows { ContinuesRemoval opens.now seats.now seat.now moment asked used result }
    ensures ready { IfOk result (λ plan. IsPlanFor seat.now plan) }
{
    match asked? {
        Spot::Itself { .. } => Err(Halt::Refused(Errno::EBUSY)),
        Spot::Missing { .. } => Err(Halt::Refused(Errno::ENOENT)),
        Spot::Present {
            dir,
            name,
            ino,
            stat,
            parent,
        } => {
            let busy = is_busy(opens, seats, ino);
            rmdir_asked(seat, moment, dir, name, busy, stat, parent, used)
        }
    }
}
