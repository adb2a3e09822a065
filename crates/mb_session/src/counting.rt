ghost use Rattle.std.specs.Prelude.{◌≡◌, ◌+◌, ◌<◌, ◌≤◌, ℕ, IfOk, OnOk, length};
ghost use Rattle.std.specs.FinMap as fin;
ghost use Rattle.mb_iface.specs.OpenCounts.{count_of};
ghost use Rattle.mb_session.specs.OpenFiles.{TellsCounts};
ghost use Rattle.mb_tree.specs.Sessions.{counts, held_by, held_in};

use mb_edge::NoMemory;
use mb_iface::Opens;
use mb_tree::Seat;
use std::alloc::Global;

/// How many open files of all sessions are on each inode.
pub(crate) fn count_seats(alloc: Global, seats: &[Seat]) -> Result<Opens, NoMemory>
    requires { length seats.now ≤ 8 }
    ensures { IfOk result (λ opens. TellsCounts opens (counts seats.now)) }
{
    let mut opens = Opens::new(alloc);
    for seat in seats {
        count_files(&mut opens, seat)?;
    }
    Ok(opens)
}

/// Counts the open files of a session, on top of those that were counted.
fn count_files(opens: &mut Opens, seat: &Seat) -> Result<(), NoMemory>
    requires { (ino : ℕ) → count_of opens.old ino ≤ 65535 }
    ensures { OnOk result ((ino : ℕ) → count_of opens.new ino ≡ count_of opens.old ino + held_in seat.now ino) }
{
    let mut place = 0;
    'turns: while place < 17 {
        count_file(opens, seat, place)?;
        place += 1;
    }
    Ok(())
}

/// Counts the open file at a place, where there is one.
fn count_file(opens: &mut Opens, seat: &Seat, place: u8) -> Result<(), NoMemory>
    requires { (ino : ℕ) → count_of opens.old ino ≤ 131071 }
    ensures { OnOk result ((ino : ℕ)
        → count_of opens.new ino ≡ count_of opens.old ino + held_by ino (fin.get seat.now.files place)) }
{
    let Some(file) = seat.files.get(place) else {
        return Ok(());
    };
    let count = opens.count(file.ino);
    opens.set(file.ino, count + 1)?;
    Ok(())
}
