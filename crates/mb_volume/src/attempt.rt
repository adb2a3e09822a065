ghost use Rattle.std.specs.Prelude.{◌≡◌, ◌+◌, ◌<◌, Some, IfSome};
ghost use Rattle.mb_cache.specs.Kept.{shown};
ghost use Rattle.mb_iface.specs.Needs.{IsNeed};
ghost use Rattle.mb_run.specs.Recovering.{GoOn};
ghost use Rattle.mb_volume.specs.Attempts.{back_out, going_in, KeepsCrossings, new_attempt};

use mb_callers::Pages;
use mb_edge::Crossings;
use mb_iface::Need;
use mb_kinds::{Call, Ticket};
use mb_run::At;
use std::alloc::Global;

/// What a caller keeps of its call under way, which is nobody else's.
#[derive(Drop)]
pub(crate) struct Attempt {
    /// The fault points that the call passed.
    pub crossings: Crossings,
    /// Where it stands.
    pub at: At,
    /// Whether the fault injector was asked at the present finish, which found another call with the right to commit
    /// alone.
    pub asked: bool,
    /// What it gathered.
    pub pages: Pages,
}

impl Attempt {
    /// The next call of a caller that began so many calls; needs no memory.
    pub fn new(alloc: Global, caller: u8, begun: u32) -> Attempt
        requires { begun + 1 < 4294967296 }
        ensures { result ≡ new_attempt caller begun }
    {
        Attempt {
            crossings: Crossings {
                caller,
                ordinal: begun + 1,
                counts: [0; 6],
            },
            at: At::Outside,
            asked: false,
            pages: Pages::new(alloc),
        }
    }

    /// What calls like this one looked at before, where it gathered no block yet (`Pages::foreseen`). Nothing changes.
    pub fn foreseen(&mut self, call: &Call) -> Option<Need>
        ensures same { self.new ≡ self.old }
        ensures need { IfSome result (IsNeed (shown self.old.pages.blocks)) }
    {
        self.pages.foreseen(call)
    }

    /// The call has to enter again, with nothing gathered.
    pub fn back(&mut self)
        ensures { self.new ≡ back_out self.old }
    {
        self.at = At::Outside;
        self.asked = false;
        self.pages.clear();
    }

    /// The call is inside, with nothing gathered.
    pub fn go_in(&mut self, ticket: Ticket)
        ensures { self.new ≡ going_in self.old ticket }
    {
        self.at = At::Inside(ticket);
        self.asked = false;
        self.pages.clear();
    }

    /// The crossings that a step of a recovery passed.
    pub fn keep(&mut self, by: &Option<Crossings>)
        requires { GoOn (Some self.old.crossings) by.now }
        ensures { KeepsCrossings self.old by.now self.new }
    {
        match by {
            Some(crossings) => self.crossings = *crossings,
            None => unreachable!(),
        }
    }
}
