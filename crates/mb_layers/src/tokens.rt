//! The tokens of the pages, by block.
ghost use Rattle.std.specs.Prelude.{◌≡◌, ◌≤◌, ◌<◌, ◌+◌, ◌-◌, ◌^◌, ℕ, Some, None, OnOk, IsOk, true, cond, nat_eq, is_some, option_copied, vec_len, vec_capacity};
ghost use Rattle.std.specs.Option.{option_or};
ghost use Rattle.indexmap.specs.IndexMap.{get, spare};
ghost use Rattle.mb_layers.specs.Tokens.{is_dropped, current_in, sealed_in, IsAged, SameAges};

use indexmap::IndexMap;
use mb_frames::Token;
use mb_kinds::NoMemory;
use std::alloc::Global;

/// A block's newest page with the number of its generation, and its older page. The newest one is current where its
/// generation is the present one, gone where that was dropped, and else sealed; an older one is sealed.
#[derive(Drop)]
pub(crate) struct Entry {
    pub(crate) generation: u64,
    pub(crate) newest: Token,
    pub(crate) older: Option<Token>,
}

/// The tokens of each block's pages, the present generation, and those that were dropped.
#[derive(Drop)]
pub(crate) struct Tokens {
    pub(crate) map: IndexMap<u32, Entry>,
    pub(crate) present: u64,
    pub(crate) dropped: Vec<u64>,
    /// By a block's number modulo 1,024, where in the map such a block last came to stand, so that most
    /// look-ups need no search. It is looked at before it is believed, and any number may stand here.
    guesses: [u16; 1024],
}

/// Where the guess for a block stands.
fn guess_of(block: u32) -> usize
    ensures { result < 1024 }
{
    (block % 1024) as usize
}

/// The guess for a place. Places from 65,535 on have one guess, which is of use for the first alone.
fn guess_at(place: usize) -> u16 {
    place.min(65535) as u16
}

/// A block's entry, by a search. It stays out of its caller, whose way by a guess is short.
#[inline(never)]
fn searched(map: &IndexMap<u32, Entry>, block: u32) -> Option<&Entry>
    ensures { option_copied result ≡ get nat_eq map.now block }
{
    map.get(&block)
}

impl Tokens {
    pub(crate) fn new(alloc: Global) -> Tokens
        ensures current { (block : ℕ) → current_in result block ≡ None }
        ensures sealed { (block : ℕ) → sealed_in result block ≡ None }
        ensures aged { IsAged result }
        ensures present { result.present ≡ 0 }
    {
        Tokens {
            map: IndexMap::new(alloc),
            present: 0,
            dropped: Vec::new(alloc),
            guesses: [0; 1024],
        }
    }

    /// A block's entry, where it has one: at the guessed place, else by a search.
    fn entry_of(&self, block: u32) -> Option<&Entry>
        ensures { option_copied result ≡ get nat_eq self.now.map block }
    {
        let guess = self.guesses[guess_of(block)];
        if let Some((key, entry)) = self.map.get_index(usize::from(guess)) {
            if *key == block {
                return Some(entry);
            }
        }
        searched(&self.map, block)
    }

    /// Notes the place of the block that stands there, where one does.
    fn note(&mut self, place: usize)
        ensures { (self.new.map ≡ self.old.map) × (self.new.present ≡ self.old.present) × (self.new.dropped ≡ self.old.dropped) }
    {
        if let Some((block, _)) = self.map.get_index(place) {
            self.guesses[guess_of(*block)] = guess_at(place);
        }
    }

    /// Whether a generation was dropped: by halves, since there are as many as there were recoveries.
    fn is_dropped(&self, generation: u64) -> bool
        requires { IsAged self.now }
        ensures { result ≡ is_dropped self.now generation }
    {
        self.dropped.as_slice().binary_search(&generation).is_ok()
    }

    /// Makes room for so many more blocks, and for so many generations. Nothing else changes.
    pub(crate) fn reserve(&mut self, blocks: usize, generations: usize) -> Result<(), NoMemory>
        ensures map { OnOk result (blocks ≤ spare self.new.map) }
        ensures drops { OnOk result (vec_len self.new.dropped + generations ≤ vec_capacity self.new.dropped) }
        ensures seals { OnOk result (self.new.present + generations ≤ 2 ^ 64 - 1) }
        ensures same { (self.new.map.entries ≡ self.old.map.entries) × (self.new.present ≡ self.old.present)
            × (self.new.dropped.items ≡ self.old.dropped.items) }
        ensures kept { (spare self.old.map ≤ spare self.new.map)
            × (vec_capacity self.old.dropped ≤ vec_capacity self.new.dropped) }
        ensures sure { blocks ≤ spare self.old.map
            → vec_len self.old.dropped + generations ≤ vec_capacity self.old.dropped
            → self.old.present + generations ≤ 2 ^ 64 - 1 → IsOk result }
    {
        if (u64::MAX - self.present) < generations as u64 {
            return Err(NoMemory);
        }
        self.dropped.reserve(generations)?;
        self.map.reserve(blocks)?;
        Ok(())
    }

    /// Forgets all tokens and the dropped generations, and keeps the room. No block has a page from then on.
    pub(crate) fn forget(&mut self)
        ensures current { (block : ℕ) → current_in self.new block ≡ None }
        ensures sealed { (block : ℕ) → sealed_in self.new block ≡ None }
        ensures aged { IsAged self.new }
        ensures present { self.new.present ≡ self.old.present }
        ensures dropped { (vec_len self.new.dropped ≡ 0) × (vec_capacity self.old.dropped ≤ vec_capacity self.new.dropped) }
        ensures spare { spare self.old.map ≤ spare self.new.map }
    {
        self.map.clear();
        self.dropped.clear();
    }

    /// The token of the block's current page, where it has one.
    pub(crate) fn current(&self, block: u32) -> Option<&Token>
        ensures { option_copied result ≡ current_in self.now block }
    {
        let entry = self.entry_of(block)?;
        if entry.generation != self.present {
            return None;
        }
        Some(&entry.newest)
    }

    /// The token of the block's current page, else of its sealed one.
    pub(crate) fn newest(&self, block: u32) -> Option<&Token>
        requires { IsAged self.now }
        ensures { option_copied result ≡ option_or (current_in self.now block) (sealed_in self.now block) }
    {
        let entry = self.entry_of(block)?;
        if self.is_dropped(entry.generation) {
            return entry.older.as_ref();
        }
        Some(&entry.newest)
    }

    /// Takes a block that has no current page out of the map, with the token of its sealed page.
    fn take_out(&mut self, block: u32) -> Option<Token>
        requires none { current_in self.old block ≡ None }
        requires aged { IsAged self.old }
        ensures token { result ≡ sealed_in self.old block }
        ensures current { (other : ℕ) → current_in self.new other ≡ current_in self.old other }
        ensures sealed { (other : ℕ) → sealed_in self.new other ≡ cond (nat_eq block other) None (sealed_in self.old other) }
        ensures aged { IsAged self.new }
        ensures ages { SameAges self.old self.new }
        ensures spare { spare self.old.map ≤ spare self.new.map }
    {
        let (place, _, entry) = self.map.swap_remove_full(&block)?;
        self.note(place);
        let Entry {
            generation,
            newest,
            older,
        } = entry;
        if self.is_dropped(generation) {
            older
        } else {
            Some(newest)
        }
    }

    /// Takes the token of the block's sealed page, where it has one.
    pub(crate) fn take_sealed(&mut self, block: u32) -> Option<Token>
        requires { IsAged self.old }
        ensures token { result ≡ sealed_in self.old block }
        ensures current { (other : ℕ) → current_in self.new other ≡ current_in self.old other }
        ensures sealed { (other : ℕ) → sealed_in self.new other ≡ cond (nat_eq block other) None (sealed_in self.old other) }
        ensures aged { IsAged self.new }
        ensures ages { SameAges self.old self.new }
        ensures spare { spare self.old.map ≤ spare self.new.map }
    {
        if self.current(block).is_none() {
            return self.take_out(block);
        }
        let entry = self.map.get_mut(&block)?;
        entry.older.take()
    }

    /// Gives a block its current page. Returns whether it has a sealed one too.
    pub(crate) fn put(&mut self, block: u32, token: Token) -> bool
        requires none { current_in self.old block ≡ None }
        requires room { 0 < spare self.old.map }
        requires aged { IsAged self.old }
        ensures both { result ≡ is_some (sealed_in self.old block) }
        ensures current { (other : ℕ)
            → current_in self.new other ≡ cond (nat_eq block other) (Some token) (current_in self.old other) }
        ensures sealed { (other : ℕ) → sealed_in self.new other ≡ sealed_in self.old other }
        ensures aged { IsAged self.new }
        ensures ages { SameAges self.old self.new }
        ensures spare { spare self.old.map ≤ spare self.new.map + 1 }
    {
        let older = self.take_out(block);
        let is_both = older.is_some();
        let entry = Entry {
            generation: self.present,
            newest: token,
            older,
        };
        let place = self.map.len();
        let Ok(_) = self.map.insert(block, entry) else {
            unreachable!()
        };
        self.note(place);
        is_both
    }

    /// Makes each current page a sealed one. No block has both.
    pub(crate) fn seal(&mut self)
        requires one { (block : ℕ) → is_some (current_in self.old block) ≡ true → sealed_in self.old block ≡ None }
        requires room { self.old.present < 2 ^ 64 - 1 }
        requires aged { IsAged self.old }
        ensures current { (block : ℕ) → current_in self.new block ≡ None }
        ensures sealed { (block : ℕ)
            → sealed_in self.new block ≡ option_or (current_in self.old block) (sealed_in self.old block) }
        ensures aged { IsAged self.new }
        ensures same { (self.new.map ≡ self.old.map) × (self.new.dropped ≡ self.old.dropped)
            × (self.new.present ≡ self.old.present + 1) }
    {
        self.present += 1;
    }

    /// Drops the current pages.
    pub(crate) fn drop_current(&mut self)
        requires room { (self.old.present < 2 ^ 64 - 1) × (vec_len self.old.dropped < vec_capacity self.old.dropped) }
        requires aged { IsAged self.old }
        ensures current { (block : ℕ) → current_in self.new block ≡ None }
        ensures sealed { (block : ℕ) → sealed_in self.new block ≡ sealed_in self.old block }
        ensures aged { IsAged self.new }
        ensures map { (self.new.map ≡ self.old.map) × (self.new.present ≡ self.old.present + 1) }
        ensures dropped { (vec_len self.new.dropped ≡ vec_len self.old.dropped + 1)
            × (vec_capacity self.old.dropped ≤ vec_capacity self.new.dropped) }
    {
        self.dropped.push(self.present).unwrap();
        self.present += 1;
    }
}
