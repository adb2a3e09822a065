ghost use Rattle.std.specs.Prelude.{◌≡◌, ◌<◌, [], ℕ, None, option_copied, option_map, IfNone, IfSome};
ghost use Rattle.mb_cache.specs.Kept.{KeptBlock, kept_at, shown};
ghost use Rattle.mb_core_spec.specs.Copies.{LiveTables, TableCopy, no_pages};
ghost use Rattle.mb_callers.specs.Stale.{AllFresh, IsLeastStale};
ghost use Rattle.mb_iface.specs.Needs.{IsNeed};

use crate::tables::TablePlace;
use mb_cache::Cache;
use mb_copies::{Copies, Foresight};
use mb_edge::Disk;
use mb_iface::{Need, Opens, Others, View};
use mb_kinds::Call;
use mb_session::Sessions;
use std::alloc::Global;
use std::marker::Model;

/// The blocks that a call gathered, each with the stamp that it had, and, once block 0 was gathered, copies of the
/// sessions and of the counts of open files. A contract sees a `PagesState`. Emptied, it keeps its room for the next
/// call.
pub struct Pages {
    pub(crate) blocks: Copies,
    pub(crate) tables: TablePlace,
    foresight: Foresight,
}

// written out, so that a crate above which lets it go checks one call
impl Drop for Pages {
    fn drop(self) {
        let Pages {
            blocks: _,
            tables: _,
            foresight: _,
        } = self;
    }
}

impl Model for Pages {
    ghost use Rattle.std.specs.Coded.{codes, coded_ℕ};
    ghost use Rattle.std.specs.FinMap as fin;
    ghost use Rattle.std.specs.Ordering.{nat_cmp};
    ghost use Rattle.mb_tree.specs.contracts.seats.PlainFile as file;
    ghost use Rattle.mb_core_spec.specs.Copies.{PagesState};
    ghost use Rattle.mb_callers.specs.Tables.{held_if};

    ghost Value = { PagesState };

    ghost coded = { Prim.hlevel (codes, fin.code {R = nat_cmp} coded_ℕ coded_ℕ, fin.code {R = nat_cmp} coded_ℕ file.the_row.coded) };

    ghost view = { λ p. record { blocks = p.blocks.items; tables = held_if p.tables.there p.tables.held } };
}

/// Whether a need names a block.
fn is_named(need: &Need, block: u32) -> bool {
    let in_run = need.first <= block && block - need.first < need.count;
    in_run || need.others.blocks().contains(&block)
}

/// The next foreseen block that is not there and that the need does not name.
fn next_foreseen(foresight: &mut Foresight, blocks: &Copies, need: &Need) -> Option<u32>
    ensures { IfSome result (λ block. block < 262144) }
{
    for _ in 0..32 {
        let block = foresight.next()?;
        if block < 262_144 && !is_named(need, block) && blocks.get(block).is_none() {
            return Some(block);
        }
    }
    None
}

/// The others of a need, and in each place that is left a foreseen block.
fn others_foreseen(foresight: &mut Foresight, blocks: &Copies, need: &Need) -> Others {
    let mut others = [0; 15];
    let mut more = true;
    for place in 0..15 {
        let named = need.others.blocks()[place];
        if 0 < named && named < 262_144 {
            others[place] = named;
        } else if more {
            match next_foreseen(foresight, blocks, need) {
                Some(block) => others[place] = block,
                None => more = false,
            }
        }
    }
    Others::of(others)
}

/// The next foreseen block.
fn next_block(foresight: &mut Foresight) -> Option<u32>
    ensures { IfSome result (λ block. block < 262144) }
{
    let block = foresight.next()?;
    if block < 262_144 { Some(block) } else { None }
}

/// The next foreseen blocks, as many as a need has places for.
fn next_others(foresight: &mut Foresight) -> Others {
    let mut others = [0; 15];
    for place in 0..15 {
        match next_block(foresight) {
            Some(block) => others[place] = block,
            None => return Others::of(others),
        }
    }
    Others::of(others)
}

impl Pages {
    /// Nothing gathered; needs no memory.
    pub fn new(alloc: Global) -> Pages
        ensures { result ≡ no_pages }
    {
        Pages {
            blocks: Copies::new(alloc),
            tables: TablePlace::new(),
            foresight: Foresight::new(alloc),
        }
    }

    /// Drops all that was gathered, and keeps the room; needs no memory.
    pub fn clear(&mut self)
        ensures { self.new ≡ no_pages }
    {
        self.foresight.end(self.blocks.numbers());
        self.blocks.clear();
        self.tables.clear();
    }

    /// What a call asks for, and, as far as a need has places for them, blocks that calls like this one looked at before and
    /// that are not there. Which ones they are is a guess; without memory for a place of its kind there are none. The pages
    /// are as before.
    pub fn foresee(&mut self, call: &Call, need: Need) -> Need
        ensures same { self.new ≡ self.old }
        ensures first { result.first ≡ need.first }
        ensures count { result.count ≡ need.count }
    {
        if self.blocks.len() == 0 {
            self.foresight.begin(call);
        }
        let others = others_foreseen(&mut self.foresight, &self.blocks, &need);
        Need { others, ..need }
    }

    /// Where no block is there, blocks that calls like this one looked at before, as many as a need has places for, so that
    /// a call is performed over them from the beginning; `None` where there are none. Which ones they are is a guess; without
    /// memory for a place of its kind there are none. The pages are as before.
    pub fn foreseen(&mut self, call: &Call) -> Option<Need>
        ensures same { self.new ≡ self.old }
        ensures need { IfSome result (IsNeed (shown self.old.blocks)) }
    {
        if self.blocks.len() > 0 {
            return None;
        }
        self.foresight.begin(call);
        let first = next_block(&mut self.foresight)?;
        if first == 0 {
            return None;
        }
        let others = next_others(&mut self.foresight);
        Some(Need::one(first).with(others))
    }

    /// The sessions; `None` exactly where block 0 was not gathered.
    pub fn sessions(&self) -> Option<&Sessions>
        ensures { option_copied result ≡ option_map (λ (tables : TableCopy). tables.sessions) self.now.tables }
    {
        match self.tables.get() {
            Some(tables) => Some(tables.sessions()),
            None => None,
        }
    }

    /// The counts of open files; `None` exactly where block 0 was not gathered.
    pub fn opens(&self) -> Option<&Opens>
        ensures { option_copied result ≡ option_map (λ (tables : TableCopy). tables.opens) self.now.tables }
    {
        match self.tables.get() {
            Some(tables) => Some(tables.opens()),
            None => None,
        }
    }

    /// The stamp that a gathered block had; `None` exactly where the block was not gathered.
    pub fn stamp(&self, block: u32) -> Option<u64>
        ensures { result ≡ option_map (λ (kept : KeptBlock). kept.stamp) (kept_at self.now.blocks block) }
    {
        match self.blocks.get(block) {
            Some(kept) => Some(kept.stamp()),
            None => None,
        }
    }

    /// The least block of pages that were handed out of which these are not the bytes that are kept, or which changed
    /// since; block 0 stands for the tables, of which the caller's own session alone counts where the call is not
    /// shared. `stamp` is the tables' present one. `None` exactly where nothing is stale.
    pub(crate) fn stale_block<D: Disk>(
        &self,
        cache: &Cache<D>,
        stamp: u64,
        caller: u8,
        shared: bool,
        pages: &Pages,
    ) -> Option<u32>
        ensures none { (live : LiveTables) → live.stamp ≡ stamp
            → IfNone result (AllFresh shared caller cache.now.stamps live self.now pages.now) }
        ensures some { (live : LiveTables) → live.stamp ≡ stamp
            → IfSome result (IsLeastStale shared caller cache.now.stamps live self.now pages.now) }
    {
        if !self.tables.is_fresh(shared, caller, &pages.tables, stamp) {
            return Some(0);
        }
        self.blocks.least_stale(&pages.blocks, cache)
    }
}

impl View for Pages {
    ghost use Rattle.mb_cache.specs.Kept.{shown};

    ghost shown = { λ p. shown p.blocks };

    fn get(&self, block: u32) -> Option<&[u8; 512]> {
        match self.blocks.find(block) {
            Some((place, kept)) => {
                self.foresight.look(place);
                Some(kept.bytes())
            }
            None => None,
        }
    }
}
