ghost use Rattle.std.specs.Prelude.{◌≡◌, Option, Some, true, false, length, IfOk, Decides, option_copied};
ghost use Rattle.mb_core_spec.specs.Copies.{LiveTables, TablesAreFresh};
ghost use Rattle.mb_callers.specs.Tables.{DecidesTables, IsMadeFor, as_copy, held_if};

use mb_edge::NoMemory;
use mb_iface::Opens;
use mb_session::Sessions;
use std::alloc::Global;
use std::marker::Model;

/// The tables of a core as they are, from which copies are made: the sessions, the counts of open files, and the stamp
/// of block 0, which rises at each change of a count or of a current directory.
pub struct TablesNow<'a> {
    pub sessions: &'a Sessions,
    pub opens: &'a Opens,
    pub stamp: u64,
}

/// A copy of the tables.
#[derive(Drop)]
pub(crate) struct KeptTables {
    sessions: Sessions,
    opens: Opens,
    stamp: u64,
}

impl Model for KeptTables {
    ghost use Rattle.std.specs.Coded.{codes, coded_ℕ};
    ghost use Rattle.std.specs.FinMap as fin;
    ghost use Rattle.std.specs.Ordering.{nat_cmp};
    ghost use Rattle.mb_tree.specs.contracts.seats.PlainFile as file;
    ghost use Rattle.mb_core_spec.specs.Copies.{TableCopy};

    ghost Value = { TableCopy };

    ghost coded = { Prim.hlevel (codes, fin.code {R = nat_cmp} coded_ℕ coded_ℕ, fin.code {R = nat_cmp} coded_ℕ file.the_row.coded) };

    ghost view = { λ t. record { sessions = t.sessions; opens = t.opens; stamp = t.stamp } };
}

impl KeptTables {
    /// A copy of the tables, where both parts of it were made.
    fn of(now: &TablesNow<'_>, made: Made) -> Option<KeptTables>
        requires { IsMadeFor None (as_copy now.now) made }
        ensures { result ≡ Some (as_copy now.now) }
    {
        let Made { sessions, opens } = made;
        Some(KeptTables {
            sessions: sessions?,
            opens: opens?,
            stamp: now.stamp,
        })
    }

    /// The sessions.
    pub fn sessions(&self) -> &Sessions
        ensures { result.now ≡ self.now.sessions }
    {
        &self.sessions
    }

    /// How often each file is open.
    pub fn opens(&self) -> &Opens
        ensures { result.now ≡ self.now.opens }
    {
        &self.opens
    }

    /// Becomes a copy of the tables, by what was made for it; needs no memory.
    fn renew(&mut self, now: &TablesNow<'_>, made: Made)
        requires { IsMadeFor (Some self.old) (as_copy now.now) made }
        ensures { self.new ≡ as_copy now.now }
    {
        let Made { sessions, opens } = made;
        match sessions {
            Some(sessions) => self.sessions = sessions,
            None => self.sessions.take_over(now.sessions),
        }
        if let Some(opens) = opens {
            self.opens = opens;
        }
        self.stamp = now.stamp;
    }

    fn is_fresh(&self, shared: bool, caller: u8, given: &KeptTables, stamp: u64) -> bool
        ensures { (live : LiveTables) → live.stamp ≡ stamp
            → Decides result (TablesAreFresh shared caller live self.now given.now) }
    {
        if shared {
            self.is_same(given, stamp)
        } else {
            given.sessions.agrees(caller, &self.sessions)
        }
    }

    fn is_same(&self, given: &KeptTables, stamp: u64) -> bool
        ensures { (live : LiveTables) → live.stamp ≡ stamp → Decides result (TablesAreFresh true 0 live self.now given.now) }
    {
        self.stamp == stamp && given.sessions.same(&self.sessions) && given.opens.same(&self.opens)
    }
}

/// What memory was taken for, that a copy of the tables can be made: the parts for which it has no room.
#[derive(Drop)]
pub(crate) struct Made {
    sessions: Option<Sessions>,
    opens: Option<Opens>,
}

/// A place for a copy of the tables. A copy that was given back stays held for its room.
#[derive(Drop)]
pub(crate) struct TablePlace {
    there: bool,
    held: Option<KeptTables>,
}

impl TablePlace {
    /// No copy; needs no memory.
    pub fn new() -> TablePlace
        ensures { held_if result.there result.held ≡ None }
    {
        TablePlace {
            there: false,
            held: None,
        }
    }

    /// The copy; `None` exactly where there is none.
    pub fn get(&self) -> Option<&KeptTables>
        ensures { option_copied result ≡ held_if self.now.there self.now.held }
    {
        if self.there { self.held.as_ref() } else { None }
    }

    /// What a copy of the tables takes memory for: its parts that the one that is held has no room for.
    pub fn prepare(&self, alloc: Global, now: &TablesNow<'_>) -> Result<Made, NoMemory>
        ensures { IfOk result (IsMadeFor self.now.held (as_copy now.now)) }
    {
        let sessions = match &self.held {
            Some(held) if held.sessions.callers() == now.sessions.callers() => None,
            _ => Some(now.sessions.copy(alloc)?),
        };
        let opens = match &self.held {
            Some(held) if held.opens.same(now.opens) => None,
            _ => Some(now.opens.copy()?),
        };
        Ok(Made { sessions, opens })
    }

    /// Takes a copy of the tables, by what was made for it; needs no memory.
    pub fn put(&mut self, now: &TablesNow<'_>, made: Made)
        requires { IsMadeFor self.old.held (as_copy now.now) made }
        ensures { held_if self.new.there self.new.held ≡ Some (as_copy now.now) }
    {
        self.there = true;
        match &mut self.held {
            Some(held) => held.renew(now, made),
            None => self.held = KeptTables::of(now, made),
        }
    }

    /// Gives the copy back, and keeps its room; needs no memory.
    pub fn clear(&mut self)
        ensures { held_if self.new.there self.new.held ≡ None }
    {
        self.there = false;
    }

    /// Whether tables that were handed out did not change since, for a call that may depend on other callers' sessions
    /// or not. `stamp` is the tables' present one.
    pub fn is_fresh(&self, shared: bool, caller: u8, given: &TablePlace, stamp: u64) -> bool
        ensures { DecidesTables result shared caller stamp (held_if self.now.there self.now.held) (held_if given.now.there given.now.held) }
    {
        let Some(given) = given.get() else {
            return true;
        };
        match self.get() {
            Some(kept) => kept.is_fresh(shared, caller, given, stamp),
            None => false,
        }
    }
}
