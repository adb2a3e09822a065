ghost use Rattle.std.specs.Prelude.{◌≡◌, ◌<◌, slice_set};
ghost use Rattle.mb_edge.specs.Crossings.{next_nth, place_of};

use mb_kinds::Kind;

/// A fault point that a call passes. `ordinal` is the call's place in its caller's own list, from 1, and `nth`
/// counts the crossings of that kind in that call over the whole run, from 1.
#[derive(Clone, Copy, Debug, PartialEq, Eq, Drop)]
pub struct Crossing {
    pub caller: u8,
    pub ordinal: u32,
    pub kind: Kind,
    pub nth: u32,
}

/// The crossings of one call so far: how many of each kind, in the order of the kinds.
#[derive(Clone, Copy, Debug, PartialEq, Eq, Drop)]
pub struct Crossings {
    pub caller: u8,
    pub ordinal: u32,
    pub counts: [u32; 6],
}

impl Crossings {
    /// The next crossing of that kind, which is counted. A count that has reached 4294967295 stays there.
    pub fn next(&mut self, kind: Kind) -> Crossing
        ensures crossing { result ≡ record { caller = self.old.caller; ordinal = self.old.ordinal; kind = kind; nth = next_nth self.old.counts kind } }
        ensures counted { self.new ≡ record self.old { counts = slice_set self.old.counts (place_of kind) (next_nth self.old.counts kind) } }
    {
        let place = place_of(kind);
        let nth = self.counts[place].saturating_add(1);
        self.counts[place] = nth;
        Crossing {
            caller: self.caller,
            ordinal: self.ordinal,
            kind,
            nth,
        }
    }
}

fn place_of(kind: Kind) -> usize
    ensures place { result ≡ place_of kind }
    ensures bound { result < 6 }
{
    match kind {
        Kind::Enter => 0,
        Kind::Gather => 1,
        Kind::Finish => 2,
        Kind::Leave => 3,
        Kind::Remount => 4,
        Kind::Replay => 5,
    }
}
