ghost use Rattle.std.specs.Prelude.{◌≡◌, ◌+◌, ◌<◌, IfSome};
ghost use Rattle.mb_cache.specs.Kept.{shown};
ghost use Rattle.mb_iface.specs.Needs.{IsNeed};
ghost use Rattle.mb_run.specs.Drives.{new_runner};
ghost use Rattle.mb_run.specs.Served.{advanced, backed};

use mb_callers::Pages;
use mb_edge::Crossings;
use mb_iface::Need;
use mb_kinds::{Call, Ticket};
use std::alloc::Global;

/// Where a caller's call stands.
#[derive(Clone, Copy, Debug, PartialEq, Eq, Drop)]
pub enum At {
    /// It has not begun, or it has to enter again.
    Outside,
    /// It entered, with this ticket.
    Inside(Ticket),
    /// It has its entry, and leaves next.
    Logged(Ticket),
}

/// What the driver keeps of one caller.
#[derive(Drop)]
pub struct Runner {
    /// The fault points that its present call passed.
    pub crossings: Crossings,
    /// How many of its calls were answered.
    pub done: u32,
    /// Where its present call stands.
    pub at: At,
    /// Whether its present call has its entry.
    pub answered: bool,
    /// Whether the fault injector was asked at the present finish, which found another call with the right to commit
    /// alone.
    pub asked: bool,
    /// What its present call gathered.
    pub pages: Pages,
}

impl Runner {
    /// A caller before its first call; needs no memory.
    pub fn new(alloc: Global, caller: u8) -> Runner
        ensures { result ≡ new_runner caller }
    {
        Runner {
            crossings: Crossings {
                caller,
                ordinal: 1,
                counts: [0; 6],
            },
            done: 0,
            at: At::Outside,
            answered: false,
            asked: false,
            pages: Pages::new(alloc),
        }
    }

    /// What calls like the present one looked at before, where it gathered no block yet (`Pages::foreseen`). Nothing changes.
    pub fn foreseen(&mut self, call: &Call) -> Option<Need>
        ensures same { self.new ≡ self.old }
        ensures need { IfSome result (IsNeed (shown self.old.pages.blocks)) }
    {
        self.pages.foreseen(call)
    }

    /// The call was answered: the next one of the list comes.
    pub fn advance(&mut self)
        requires done { self.old.done + 2 < 4294967296 }
        requires ordinal { self.old.crossings.ordinal ≡ self.old.done + 1 }
        ensures { self.new ≡ advanced self.old }
    {
        self.done += 1;
        self.crossings = Crossings {
            caller: self.crossings.caller,
            ordinal: self.crossings.ordinal + 1,
            counts: [0; 6],
        };
        self.answered = false;
        self.back();
    }

    /// The call has to enter again, with nothing gathered.
    pub fn back(&mut self)
        ensures { self.new ≡ backed self.old }
    {
        self.at = At::Outside;
        self.asked = false;
        self.pages.clear();
    }
}
