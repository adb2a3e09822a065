ghost use Rattle.std.specs.Prelude.{◌≡◌, ◌<◌, ◌≤◌, ◌+◌, ◌%◌, ℕ, [], List, Some, None, IfSome, IfNone, OnOk, OnErr, IfOk, MatchOption, is_some, IsOk, option_copied, slice_get, length, replicate, cond, nat_eq};
ghost use Rattle.mb_word.specs.Numbers.{put_at};
ghost use Rattle.std.specs.Option.{option_or};
ghost use Rattle.mb_tree.specs.Views.{over};
ghost use Rattle.indexmap.specs.IndexMap.{insert_entry, insert_all, spare, Updates, IsUnique};
ghost use Rattle.mb_kinds.specs.Changed.{AreChanges, changed};
ghost use Rattle.mb_iface.specs.OneBlock.{ChangesOne, PutsBoth, PutsOne};
ghost use Rattle.mb_iface.specs.Places.{StandsAt};

use indexmap::IndexMap;
use indexmap::map::Entry;
use std::alloc::{AllocError, Global};
use std::marker::Model;

/// The blocks that an operation changes, each below 262,144 and each once, with their new bytes, in
/// the order in which they were first written. A contract sees the list.
#[derive(Drop)]
pub struct Changes {
    map: IndexMap<u32, [u8; 512]>,
    /// By a block's number modulo 16, one more than the place in the list where such a block was last
    /// written or found, so that most look-ups need no search; 0 where none is changed. What is not 0 is
    /// a guess, which is looked at before it is believed.
    guesses: [u8; 16],
}

impl Model for Changes {
    ghost use Rattle.std.specs.Prelude.{ℕ, List};
    ghost use Rattle.mb_iface.specs.Guesses.{AreGuessed};

    ghost Value = { List (ℕ × List ℕ) };

    ghost view = { λ c. c.map.entries };

    ghost invariant = { λ c. AreGuessed c.guesses c.map.entries };
}

/// Writes bytes over those of a block, from an offset on.
fn write_at(into: &mut [u8; 512], at: usize, bytes: &[u8])
    requires { at + length bytes.now ≤ 512 }
    ensures bytes { into.new ≡ put_at into.old at bytes.now }
    ensures sized { length into.new ≡ 512 }
{
    into[at..at + bytes.len()].copy_from_slice(bytes);
}

/// Where the guess for a block stands.
fn guess_of(block: u32) -> usize
    ensures place { result ≡ block % 16 }
    ensures within { result < 16 }
{
    (block % 16) as usize
}

/// The guess for a place, from 1 on. Places from 254 on have one guess, which is of use for the first alone.
fn guess_at(place: usize) -> u8
    ensures { 0 < result }
{
    (place.min(254) + 1) as u8
}

/// The place of a block in the list: the guessed one where it stands there, else by a search.
fn place_of(map: &IndexMap<u32, [u8; 512]>, guess: u8, block: u32) -> Option<usize>
    requires { guess ≡ 0 → changed map.now.entries block ≡ None }
    ensures found { IfSome result (λ place. (bytes : List ℕ) × (slice_get map.now.entries place ≡ Some (block, bytes))) }
    ensures none { IfNone result (changed map.now.entries block ≡ None) }
{
    if guess == 0 {
        return None;
    }
    let guessed = usize::from(guess) - 1;
    if let Some((key, _)) = map.get_index(guessed) {
        if *key == block {
            return Some(guessed);
        }
    }
    searched_place(map, block)
}

/// The place of a block in the list, by a search. It stays out of its callers, whose way by a guess is short.
#[inline(never)]
fn searched_place(map: &IndexMap<u32, [u8; 512]>, block: u32) -> Option<usize>
    ensures found { IfSome result (λ place. (bytes : List ℕ) × (slice_get map.now.entries place ≡ Some (block, bytes))) }
    ensures none { IfNone result (changed map.now.entries block ≡ None) }
{
    let (place, _, _) = map.get_full(&block)?;
    Some(place)
}

/// The bytes of a block, by a search, which stays out of its callers, too.
#[inline(never)]
fn searched(map: &IndexMap<u32, [u8; 512]>, block: u32) -> Option<&[u8; 512]>
    ensures { option_copied result ≡ changed map.now.entries block }
{
    map.get(&block)
}

/// Gives a block its bytes, a new block last: as `insert` does, whose answers would carry the old bytes
/// or the refused ones by value. It answers where the block stands, as a guess. The only error is want
/// of memory; the blocks are then as before. It stands in each of its callers, so that zeros are written
/// where they belong and not copied there.
#[inline(always)]
fn write_page(
    map: &mut IndexMap<u32, [u8; 512]>,
    block: u32,
    bytes: &[u8; 512],
) -> Result<u8, AllocError>
    ensures updates { OnOk result (Updates nat_eq map.old map.new block (Some bytes.now)) }
    ensures entries { OnOk result (map.new.entries ≡ insert_entry nat_eq map.old.entries block bytes.now) }
    ensures unique { OnOk result (IsUnique nat_eq map.new) }
    ensures guess { IfOk result (λ guess. 0 < guess) }
    ensures err { OnErr result (map.new.entries ≡ map.old.entries) }
    ensures succeeds { 0 < spare map.old → IsOk result }
    ensures spare { OnOk result (spare map.old ≤ spare map.new + 1) }
{
    let place = match map.entry(block)? {
        Entry::Occupied(here) => {
            let place = here.index();
            *here.into_mut() = *bytes;
            place
        }
        Entry::Vacant(here) => {
            let place = here.index();
            here.insert(*bytes);
            place
        }
    };
    Ok(guess_at(place))
}

impl Changes {
    /// No change; needs no memory.
    pub fn new(alloc: Global) -> Changes
        ensures { result ≡ [] }
    {
        Changes {
            map: IndexMap::new(alloc),
            guesses: [0; 16],
        }
    }

    /// No change, with room for so many blocks, so that the first ones take no memory each on their
    /// own. The only error is want of memory.
    pub fn with_room(alloc: Global, blocks: usize) -> Result<Changes, AllocError>
        ensures { IfOk result (λ changes. changes ≡ []) }
    {
        Ok(Changes {
            map: IndexMap::with_capacity(alloc, blocks)?,
            guesses: [0; 16],
        })
    }

    /// Makes room for so many changed blocks more, so that these take no memory each on their own. Nothing
    /// else changes. The only error is want of memory.
    pub fn reserve(&mut self, more: usize) -> Result<(), AllocError>
        ensures { self.new ≡ self.old }
    {
        self.map.reserve(more)
    }

    /// How many blocks are changed.
    pub fn len(&self) -> usize
        ensures count { result ≡ length self.now }
        ensures list { AreChanges self.now }
    {
        self.map.len()
    }

    /// The block at a place of the list, counted from 0, with its new bytes.
    pub fn at(&self, place: usize) -> (u32, &[u8; 512])
        requires { place < length self.now }
        ensures change { slice_get self.now place ≡ Some (result.0, result.1.now) }
        ensures below { result.0 < 262144 }
    {
        let Some((block, bytes)) = self.map.get_index(place) else {
            unreachable!()
        };
        (*block, bytes)
    }

    /// The new bytes of a block; `None` exactly where it is not changed.
    pub fn get(&self, block: u32) -> Option<&[u8; 512]>
        ensures { option_copied result ≡ changed self.now block }
    {
        let guess = self.guesses[guess_of(block)];
        if guess == 0 {
            return None;
        }
        if let Some((key, bytes)) = self.map.get_index(usize::from(guess) - 1) {
            if *key == block {
                return Some(bytes);
            }
        }
        searched(&self.map, block)
    }

    /// Changes a block. The only error is want of memory; the changes are then as before.
    pub fn put(&mut self, block: u32, bytes: &[u8; 512]) -> Result<(), AllocError>
        requires { block < 262144 }
        ensures list { OnOk result (self.new ≡ insert_entry nat_eq self.old block bytes.now) }
        ensures each { OnOk result (ChangesOne self.old self.new block bytes.now) }
        ensures ok { OnOk result (PutsOne self.old self.new block bytes.now) }
        ensures err { OnErr result (self.new ≡ self.old) }
    {
        self.guesses[guess_of(block)] = write_page(&mut self.map, block, bytes)?;
        Ok(())
    }

    /// Changes a block to zeros. The only error is want of memory; the changes are then as before.
    pub fn put_zeros(&mut self, block: u32) -> Result<(), AllocError>
        requires { block < 262144 }
        ensures list { OnOk result (self.new ≡ insert_entry nat_eq self.old block (replicate 512 0)) }
        ensures each { OnOk result (ChangesOne self.old self.new block (replicate 512 0)) }
        ensures ok { OnOk result (PutsOne self.old self.new block (replicate 512 0)) }
        ensures err { OnErr result (self.new ≡ self.old) }
    {
        self.guesses[guess_of(block)] = write_page(&mut self.map, block, &[0; 512])?;
        Ok(())
    }

    /// Changes bytes of a block that is changed already, from an offset on, and keeps its other bytes;
    /// needs no memory. Where the block is not changed yet nothing is, and the answer is false. It stands
    /// in each of its callers, so that a few bytes are stored there and not copied by a call.
    #[inline(always)]
    pub fn patch(&mut self, block: u32, at: usize, bytes: &[u8]) -> bool
        requires { at + length bytes.now ≤ 512 }
        ensures told { result ≡ is_some (changed self.old block) }
        ensures each { MatchOption (changed self.old block) (self.new ≡ self.old) (λ old.
            ChangesOne self.old self.new block (put_at old at bytes.now)) }
    {
        let guess = &mut self.guesses[guess_of(block)];
        match place_of(&self.map, *guess, block) {
            Some(place) => {
                *guess = guess_at(place);
                let (_, into) = self.map.pair_mut(place);
                write_at(into, at, bytes);
                true
            }
            None => false,
        }
    }

    /// Where a block stands in the list, counted from 0; `None` exactly where it is not changed. A
    /// change of another block leaves it there.
    pub fn place(&self, block: u32) -> Option<usize>
        ensures found { IfSome result (λ place. StandsAt self.now place block) }
        ensures none { IfNone result (changed self.now block ≡ None) }
    {
        place_of(&self.map, self.guesses[guess_of(block)], block)
    }

    /// Changes bytes of the block at a place of the list, counted from 0, from an offset on, and keeps
    /// its other bytes; needs no memory, and no look-up.
    pub fn patch_at(&mut self, place: usize, at: usize, bytes: &[u8])
        requires place { place < length self.old }
        requires fits { at + length bytes.now ≤ 512 }
        ensures { (block : ℕ) (was : List ℕ) → slice_get self.old place ≡ Some (block, was)
            → ChangesOne self.old self.new block (put_at was at bytes.now) }
    {
        let (_, page) = self.map.pair_mut(place);
        write_at(page, at, bytes);
    }

    /// Changes two blocks, one after the other, or none. The only error is want of memory; the
    /// changes are then as before.
    pub fn put_both(
        &mut self,
        block: u32,
        bytes: &[u8; 512],
        then: u32,
        after: &[u8; 512],
    ) -> Result<(), AllocError>
        requires first { block < 262144 }
        requires second { then < 262144 }
        ensures list { OnOk result (self.new
            ≡ insert_entry nat_eq (insert_entry nat_eq self.old block bytes.now) then after.now) }
        ensures each { OnOk result ((other : ℕ)
            → changed self.new other ≡ cond (nat_eq then other) (Some after.now) (cond (nat_eq block other) (Some bytes.now) (changed self.old other))) }
        ensures ok { OnOk result (PutsBoth self.old self.new block bytes.now then after.now) }
        ensures err { OnErr result (self.new ≡ self.old) }
    {
        self.map.reserve(2)?;
        let Ok(guess) = write_page(&mut self.map, block, bytes) else {
            unreachable!()
        };
        self.guesses[guess_of(block)] = guess;
        let Ok(guess) = write_page(&mut self.map, then, after) else {
            unreachable!()
        };
        self.guesses[guess_of(then)] = guess;
        Ok(())
    }

    /// Makes the changes of a later list, too, or none. The only error is want of memory; the changes
    /// are then as before.
    pub fn absorb(&mut self, mut later: Changes) -> Result<(), AllocError>
        ensures list { OnOk result (self.new ≡ insert_all nat_eq self.old later) }
        ensures each { OnOk result ((other : ℕ)
            → changed self.new other ≡ option_or (changed later other) (changed self.old other)) }
        ensures ok { OnOk result ((blocks : ℕ → List ℕ)
            → over blocks (changed self.new) ≡ over (over blocks (changed self.old)) (changed later)) }
        ensures err { OnErr result (self.new ≡ self.old) }
    {
        self.map.append(&mut later.map)?;
        self.guesses = [1; 16];
        Ok(())
    }
}
