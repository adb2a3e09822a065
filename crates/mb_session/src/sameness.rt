ghost use Rattle.std.specs.Prelude.{ℕ, ◌≡◌, ◌≤◌, None, Decides, slice_get};
ghost use Rattle.std.specs.FinMap as fin;
ghost use Rattle.mb_session.specs.Ranges.{AreInRange, IsInRange};

use mb_tree::{Fds, Files, PlainFile, Seat};

/// Whether two lists have the same sessions.
pub(crate) fn same_seats(seats: &[Seat], others: &[Seat]) -> bool
    requires seats { AreInRange seats.now }
    requires others { AreInRange others.now }
    ensures { Decides result (seats.now ≡ others.now) }
{
    if seats.len() != others.len() {
        return false;
    }
    for at in 0..seats.len() {
        if !same_at(seats, others, at) {
            return false;
        }
    }
    true
}

/// Whether the sessions at a place are the same, or missing in both lists.
pub(crate) fn same_at(seats: &[Seat], others: &[Seat], at: usize) -> bool
    requires seats { AreInRange seats.now }
    requires others { AreInRange others.now }
    ensures { Decides result (slice_get seats.now at ≡ slice_get others.now at) }
{
    match (seats.get(at), others.get(at)) {
        (Some(seat), Some(other)) => is_same(seat, other),
        (None, None) => true,
        _ => false,
    }
}

fn is_same(seat: &Seat, other: &Seat) -> bool
    requires seat { IsInRange seat.now }
    requires other { IsInRange other.now }
    ensures { Decides result (seat.now ≡ other.now) }
{
    let alike = seat.cred == other.cred && seat.cwd == other.cwd && seat.umask == other.umask;
    alike && have_same_places(&seat.fds, &other.fds) && have_same_files(&seat.files, &other.files)
}

fn have_same_places(fds: &Fds, others: &Fds) -> bool
    requires fds { (fd : ℕ) → 20 ≤ fd → fin.get fds.now fd ≡ None }
    requires others { (fd : ℕ) → 20 ≤ fd → fin.get others.now fd ≡ None }
    ensures { Decides result (fds.now ≡ others.now) }
{
    for fd in 0..20 {
        if fds.get(fd) != others.get(fd) {
            return false;
        }
    }
    true
}

fn have_same_files(files: &Files, others: &Files) -> bool
    requires files { (place : ℕ) → 17 ≤ place → fin.get files.now place ≡ None }
    requires others { (place : ℕ) → 17 ≤ place → fin.get others.now place ≡ None }
    ensures { Decides result (files.now ≡ others.now) }
{
    for place in 0..17 {
        if !is_same_file(files.get(place), others.get(place)) {
            return false;
        }
    }
    true
}

fn is_same_file(file: Option<PlainFile>, other: Option<PlainFile>) -> bool
    ensures { Decides result (file ≡ other) }
{
    match (file, other) {
        (Some(file), Some(other)) => {
            file.ino == other.ino && file.how == other.how && file.offset == other.offset
        }
        (None, None) => true,
        _ => false,
    }
}
