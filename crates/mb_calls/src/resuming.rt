ghost use Rattle.std.specs.Prelude.{◌<◌, IfSome, length};
ghost use Rattle.mb_calls.specs.Following.{AreWalks, BeginsWalks, IsGoingFor, IsKept, KeepsFirst, KeepsSecond, LacksForCall, LacksOnWay, WalksGoOn};
ghost use Rattle.mb_calls.specs.Looked.{IsFirst, IsSecond};
ghost use Rattle.mb_calls.specs.Performed.{FitsCall, IsNeeded, IsRight};

use crate::performing::{KeptPlan, Performed, perform_on, seat_of, write_on};
use crate::walks::{PathWalk, PathWalks, find_place, follow, set_out};
use mb_iface::{FileSys, Need, Opens, View};
use mb_kinds::{Call, Path};
use mb_tree::{Seat, call_allowed};
use std::alloc::Global;

/// A call that is performed while its blocks are gathered: after each `Need` it goes on over a view that
/// has more of them, and keeps how far its paths were followed, and the plan of a write, whose bytes are not
/// copied again for each of its blocks.
#[derive(Drop)]
pub struct Performing {
    pub walks: PathWalks,
    pub kept: Option<KeptPlan>,
}

/// A call goes on over a view that has all that it had, with the same bytes.
pub fn walks_go_on()
    ensures { WalksGoOn }
{}

/// The first path of a call.
fn first_path(call: &Call) -> Option<&Path>
    ensures { IfSome result (λ path. IsFirst call.now path.now) }
{
    match call {
        Call::Open { path, .. }
        | Call::Creat { path, .. }
        | Call::Unlink { path }
        | Call::Mkdir { path, .. }
        | Call::Rmdir { path }
        | Call::Chdir { path }
        | Call::Stat { path }
        | Call::Chmod { path, .. }
        | Call::Chown { path, .. }
        | Call::Utime { path, .. }
        | Call::Access { path, .. } => Some(path),
        Call::Link { from, .. } => Some(from),
        _ => None,
    }
}

/// The second path of a call.
fn second_path(call: &Call) -> Option<&Path>
    ensures { IfSome result (λ path. IsSecond call.now path.now) }
{
    match call {
        Call::Link { to, .. } => Some(to),
        _ => None,
    }
}

/// How many bytes the rest of a path has at most that is followed one component after another before its place is looked
/// for: two components, as a rule.
const SHORT: usize = 16;

/// Finds the place of a path by its whole rest, which takes least where all blocks are there. Where some are lacking it
/// tells which, and follows the path as far as they are there, so that its components are not all searched again.
fn find_far<F: FileSys, V: View>(
    alloc: Global,
    fs: &F,
    view: &V,
    seat: &Seat,
    path: &Path,
    walk: &mut PathWalk,
) -> Option<Need>
    requires kept { IsKept (V.shown view.now) seat.now path.now walk.old }
    ensures kept { IsKept (V.shown view.now) seat.now path.now walk.new }
    ensures lacking { IfSome result (LacksOnWay (V.shown view.now) seat.now path.now) }
{
    let need = find_place(alloc, fs, view, seat, path, walk);
    if need.is_some() {
        let _ = follow(alloc, fs, view, seat, path, walk);
    }
    need
}

/// Follows a path to its last component, and finds its place, a long path's by its whole rest first; it tells which blocks
/// the view lacks.
fn follow_to<F: FileSys, V: View>(
    alloc: Global,
    fs: &F,
    view: &V,
    seat: &Seat,
    path: &Path,
    walk: &mut PathWalk,
) -> Option<Need>
    requires kept { IsKept (V.shown view.now) seat.now path.now walk.old }
    ensures kept { IsKept (V.shown view.now) seat.now path.now walk.new }
    ensures lacking { IfSome result (LacksOnWay (V.shown view.now) seat.now path.now) }
{
    if walk.end.is_some() {
        return None;
    }
    if path.as_slice().len().saturating_sub(walk.from) > SHORT {
        return find_far(alloc, fs, view, seat, path, walk);
    }
    let need = follow(alloc, fs, view, seat, path, walk);
    if need.is_some() {
        return need;
    }
    find_place(alloc, fs, view, seat, path, walk)
}

/// The first walk of a call goes on. The blocks that it lacks are the first ones that the call needs, since its
/// row asks for the first path before all else.
fn first_on<F: FileSys, V: View>(
    alloc: Global,
    fs: &F,
    view: &V,
    seat: &Seat,
    call: &Call,
    walk: &mut PathWalk,
) -> Option<Need>
    requires kept { KeepsFirst (V.shown view.now) seat.now call.now walk.old }
    ensures kept { KeepsFirst (V.shown view.now) seat.now call.now walk.new }
    ensures lacking { IfSome result (LacksForCall (V.shown view.now) seat.now call.now) }
{
    match first_path(call) {
        Some(path) => follow_to(alloc, fs, view, seat, path, walk),
        None => None,
    }
}

/// The second walk of a call goes on. What it lacks is asked for again where the row comes to the second path,
/// so that path does not overtake the first.
fn second_on<F: FileSys, V: View>(
    alloc: Global,
    fs: &F,
    view: &V,
    seat: &Seat,
    call: &Call,
    walk: &mut PathWalk,
)
    requires kept { KeepsSecond (V.shown view.now) seat.now call.now walk.old }
    ensures { KeepsSecond (V.shown view.now) seat.now call.now walk.new }
{
    if let Some(path) = second_path(call) {
        let _ = follow(alloc, fs, view, seat, path, walk);
    }
}

/// The walks of a call go on as far as the view has the blocks for them, the second one once the first is at its
/// end; it tells which blocks the first path lacks.
fn advance<F: FileSys, V: View>(
    alloc: Global,
    fs: &F,
    view: &V,
    seat: &Seat,
    call: &Call,
    walks: &mut PathWalks,
) -> Option<Need>
    requires going { AreWalks (V.shown view.now) seat.now call.now walks.old }
    ensures going { AreWalks (V.shown view.now) seat.now call.now walks.new }
    ensures lacking { IfSome result (LacksForCall (V.shown view.now) seat.now call.now) }
{
    let need = first_on(alloc, fs, view, seat, call, &mut walks.first);
    if need.is_some() {
        return need;
    }
    second_on(alloc, fs, view, seat, call, &mut walks.second);
    None
}

impl Performing {
    /// A call that begins, whose paths are not followed yet.
    pub fn new(seat: &Seat) -> Performing
        ensures { BeginsWalks seat.now result }
    {
        Performing {
            walks: set_out(seat),
            kept: None,
        }
    }

    /// Performs a call over the blocks gathered so far, from where it stopped over fewer of them.
    pub fn go<F: FileSys, V: View>(
        &mut self,
        alloc: Global,
        fs: &F,
        view: &V,
        sessions: &[Seat],
        opens: &Opens,
        caller: u8,
        call: &Call,
        moment: u32,
    ) -> Performed
        requires declared { caller < length sessions.now }
        requires going { IsGoingFor (V.shown view.now) sessions.now caller call.now self.old }
        ensures going { IsGoingFor (V.shown view.now) sessions.now caller call.now self.new }
        ensures right { IsRight (V.shown view.now) sessions.now opens.now caller call.now moment result }
        ensures needed { IsNeeded (V.shown view.now) sessions.now opens.now caller call.now result }
        ensures fit { FitsCall sessions.now caller call.now result }
    {
        call_allowed(call);
        let seat = seat_of(sessions, caller);
        match advance(alloc, fs, view, seat, call, &mut self.walks) {
            Some(need) => Performed::Need(need),
            None => match call {
                Call::Write { .. } => write_on(
                    alloc,
                    fs,
                    view,
                    sessions,
                    opens,
                    caller,
                    call,
                    moment,
                    &mut self.kept,
                ),
                _ => perform_on(
                    alloc,
                    fs,
                    view,
                    sessions,
                    opens,
                    caller,
                    call,
                    moment,
                    &self.walks,
                ),
            },
        }
    }
}
