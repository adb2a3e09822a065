ghost use Rattle.std.specs.Prelude.{◌≡◌, ◌≤◌, ◌<◌, ◌+◌, [], ℕ, Some, None, IfSome, IfNone, nat_eq, unwrap_or, option_copied, slice_get, OnOk, OnErr, IsOk};
ghost use Rattle.std.specs.Map.{lookup};
ghost use Rattle.mb_cache.specs.Stamps.{LowersOne, stamp_of, raised};

use indexmap::IndexMap;
use mb_edge::NoMemory;
use std::alloc::Global;
use std::marker::Model;

/// Numbers of blocks, 0 where a block has none. A contract sees the list and the room.
#[derive(Drop)]
pub(crate) struct Numbers {
    map: IndexMap<u32, u64>,
    /// By a block's number modulo 1,024, where in the map such a block was last raised or lowered, so that
    /// most look-ups need no search. It is looked at before it is believed, and any number may stand here.
    guesses: [u16; 1024],
}

impl Model for Numbers {
    ghost use Rattle.std.specs.Prelude.{ℕ, List};
    ghost use Rattle.indexmap.specs.IndexMap.{spare};
    ghost use Rattle.mb_room.specs.Room.{Roomy};

    ghost Value = { Roomy (ℕ × ℕ) };

    ghost view = { λ n. record { items = n.map.entries; spare = spare n.map } };
}

/// Where the guess for a block stands.
fn guess_of(block: u32) -> usize
    ensures { result < 1024 }
{
    (block % 1024) as usize
}

/// The guess for a place. Places from 65,535 on have one guess, which is of use for the first alone.
fn guess_at(place: usize) -> u16 {
    place.min(65535) as u16
}

/// The number of a block, by a search. It stays out of its caller, whose way by a guess is short.
#[inline(never)]
fn searched(map: &IndexMap<u32, u64>, block: u32) -> u64
    ensures { result ≡ stamp_of map.now.entries block }
{
    match map.get(&block) {
        Some(number) => *number,
        None => 0,
    }
}

/// Where a block stands: at the guessed place, else by a search.
fn place_of(map: &IndexMap<u32, u64>, guess: u16, block: u32) -> Option<usize>
    ensures found { IfSome result (λ place. (number : ℕ) × (slice_get map.now.entries place ≡ Some (block, number))) }
    ensures none { IfNone result (lookup (nat_eq block) map.now.entries ≡ None) }
{
    let guessed = usize::from(guess);
    if let Some((key, _)) = map.get_index(guessed) {
        if *key == block {
            return Some(guessed);
        }
    }
    searched_place(map, block)
}

/// Where a block stands, by a search. It stays out of its caller, too.
#[inline(never)]
fn searched_place(map: &IndexMap<u32, u64>, block: u32) -> Option<usize>
    ensures found { IfSome result (λ place. (number : ℕ) × (slice_get map.now.entries place ≡ Some (block, number))) }
    ensures none { IfNone result (lookup (nat_eq block) map.now.entries ≡ None) }
{
    let (place, _, _) = map.get_full(&block)?;
    Some(place)
}

impl Numbers {
    /// No number; needs no memory.
    pub fn new(alloc: Global) -> Numbers
        ensures { result.items ≡ [] }
    {
        Numbers {
            map: IndexMap::new(alloc),
            guesses: [0; 1024],
        }
    }

    /// The number of a block.
    pub fn of(&self, block: u32) -> u64
        ensures { result ≡ stamp_of self.now.items block }
    {
        let guess = self.guesses[guess_of(block)];
        if let Some((key, number)) = self.map.get_index(usize::from(guess)) {
            if *key == block {
                return *number;
            }
        }
        searched(&self.map, block)
    }

    /// Makes room for the numbers of so many more blocks. Nothing else changes.
    pub fn reserve(&mut self, more: usize) -> Result<(), NoMemory>
        ensures ok { OnOk result (more ≤ self.new.spare) }
        ensures same { self.new.items ≡ self.old.items }
        ensures kept { self.old.spare ≤ self.new.spare }
        ensures sure { more ≤ self.old.spare → IsOk result }
    {
        self.map.reserve(more)?;
        Ok(())
    }

    /// One more for a block; a number of 2^64 - 1 stays. The only error is want of memory, which does not
    /// come where there is room; the numbers are then as before.
    pub fn raise(&mut self, block: u32) -> Result<(), NoMemory>
        ensures ok { OnOk result (self.new.items ≡ raised self.old.items block) }
        ensures err { OnErr result (self.new.items ≡ self.old.items) }
        ensures sure { 0 < self.old.spare → IsOk result }
        ensures spare { self.old.spare ≤ self.new.spare + 1 }
    {
        let guess = &mut self.guesses[guess_of(block)];
        match place_of(&self.map, *guess, block) {
            Some(place) => {
                *guess = guess_at(place);
                let (_, number) = self.map.pair_mut(place);
                *number = number.saturating_add(1);
            }
            None => {
                *guess = guess_at(self.map.len());
                self.map.insert(block, 1)?;
            }
        }
        Ok(())
    }

    /// One less for a block; a number of 0 stays. Needs no memory.
    pub fn lower(&mut self, block: u32)
        ensures numbers { LowersOne self.old.items self.new.items block }
        ensures spare { self.old.spare ≤ self.new.spare }
    {
        let guess = &mut self.guesses[guess_of(block)];
        if let Some(place) = place_of(&self.map, *guess, block) {
            *guess = guess_at(place);
            let (_, number) = self.map.pair_mut(place);
            *number = number.saturating_sub(1);
        }
    }
}
