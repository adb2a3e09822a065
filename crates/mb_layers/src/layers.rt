//! The two layers.
ghost use Rattle.std.specs.Prelude.{◌≡◌, ◌≤◌, ◌<◌, ◌+◌, ◌-◌, ◌*◌, [], ◌∷◌, ◌++◌, ℕ, List, cond, nat_eq, is_some, length, map, slice_get, Some, None, IfOk, OnOk, IsOk, IfSome, IfNone, option_copied, vec_len, vec_capacity};
ghost use Rattle.std.specs.Option.{option_or};
ghost use Rattle.std.specs.Map.{remove_entry};
ghost use Rattle.indexmap.specs.IndexMap.{insert_entry, spare};
ghost use Rattle.mb_kinds.specs.Image.{Image};
ghost use Rattle.mb_edge.specs.Damage.{page_replaced, wiped};
ghost use Rattle.mb_kinds.specs.Changed.{AreChanges};
ghost use Rattle.mb_frames.specs.Pages.{ring_at, contents};
ghost use Rattle.mb_layers.specs.Pages.{PageList, WritesAtMost, page_at, under, count_covered};
ghost use Rattle.mb_layers.specs.Places.{place_at};
ghost use Rattle.mb_layers.specs.State.{IsOver, AreRings, AreTied, ListsBoth, under_both};
ghost use Rattle.mb_layers.specs.Tokens.{SameAges};

use crate::tokens::Tokens;
use mb_frames::Rings;
use mb_kinds::NoMemory;
use std::alloc::Global;
use std::marker::Model;

const SEALED: u32 = 0;

const CURRENT: u32 = 1;

/// Pages that lie over the blocks of a disk, each of a block below 262,144: the sealed ones, each block once, and the
/// current ones over them, each block once. A contract sees both lists, the room, which is how many more current pages are
/// taken without memory, and the count of link writes.
#[derive(Drop)]
pub struct Layers {
    rings: Rings,
    tokens: Tokens,
    // each block that has a page in both layers
    both: Vec<u32>,
}

impl Model for Layers {
    ghost use Rattle.std.specs.Prelude.{◌-◌, vec_len, vec_capacity};
    ghost use Rattle.mb_frames.specs.Pages.{contents};
    ghost use Rattle.mb_layers.specs.Pages.{LayerState};
    ghost use Rattle.mb_layers.specs.State.{sealed_ring, current_ring, spare_of, IsSound};

    ghost Value = { LayerState };

    ghost view = { λ l. record {
      sealed = contents (sealed_ring l.rings);
      current = contents (current_ring l.rings);
      spare = spare_of l.rings l.tokens (vec_capacity l.both - vec_len l.both);
      writes = l.rings.writes;
    } };

    ghost invariant = { λ l. IsSound l.rings l.tokens l.both.items };
}

impl Layers {
    /// No page. It is refused where memory for the two rings is wanting.
    pub fn new(alloc: Global) -> Result<Layers, NoMemory>
        ensures sealed { IfOk result (λ layers. layers.sealed ≡ []) }
        ensures current { IfOk result (λ layers. layers.current ≡ []) }
        ensures writes { IfOk result (λ layers. layers.writes ≡ 0) }
    {
        let rings = Rings::new(alloc, 2)?;
        Ok(Layers {
            rings,
            tokens: Tokens::new(alloc),
            both: Vec::new(alloc),
        })
    }

    /// Makes room for so many more current pages. The only error is want of memory, and it does not come where there is room
    /// already. Where there is no page, the generations that were dropped are forgotten.
    pub fn reserve(&mut self, more: usize) -> Result<(), NoMemory>
        ensures ok { OnOk result (more ≤ self.new.spare) }
        ensures sealed { self.new.sealed ≡ self.old.sealed }
        ensures current { self.new.current ≡ self.old.current }
        ensures kept { self.old.spare ≤ self.new.spare }
        ensures sure { more ≤ self.old.spare → IsOk result }
        ensures writes { self.old.writes ≤ self.new.writes }
    {
        self.forget_dropped();
        let begun = if self.rings.first(CURRENT).is_some() {
            1
        } else {
            0
        };
        let Ok(pages) = u32::try_from(more) else {
            return Err(NoMemory);
        };
        self.tokens.reserve(more, more + begun)?;
        self.both.reserve(more)?;
        self.rings.reserve(pages)
    }

    fn forget_dropped(&mut self)
        ensures sealed { self.new.sealed ≡ self.old.sealed }
        ensures current { self.new.current ≡ self.old.current }
        ensures spare { self.old.spare ≤ self.new.spare }
        ensures writes { self.new.writes ≡ self.old.writes }
    {
        if !self.tokens.dropped.is_empty()
            && self.rings.first(CURRENT).is_none()
            && self.rings.first(SEALED).is_none()
        {
            self.tokens.forget();
        }
    }

    /// The bytes of a block's current page, else of its sealed page; `None` exactly where it has neither.
    pub fn get(&self, block: u32) -> Option<&[u8; 512]>
        ensures { option_copied result ≡ option_or (page_at self.now.current block) (page_at self.now.sealed block) }
    {
        let token = self.tokens.newest(block)?;
        Some(self.rings.get(token))
    }

    /// Makes a page the current one of its block, in the place of the one before it or else behind the others; needs no
    /// memory.
    pub fn put(&mut self, block: u32, bytes: &[u8; 512])
        requires room { 0 < self.old.spare }
        requires below { block < 262144 }
        ensures current { self.new.current ≡ insert_entry nat_eq self.old.current block bytes.now }
        ensures sealed { self.new.sealed ≡ self.old.sealed }
        ensures spare { self.old.spare ≤ self.new.spare + 1 }
        ensures writes { WritesAtMost self.old.writes self.new.writes 8 }
    {
        if let Some(token) = self.tokens.current(block) {
            self.rings.write(token, bytes);
            return;
        }
        let token = self.rings.put(CURRENT, block, bytes);
        if self.tokens.put(block, token) {
            self.both.push(block).unwrap();
        }
    }

    /// Takes the sealed page of a block out, where it has one; needs no memory.
    pub fn drop_sealed(&mut self, block: u32)
        ensures sealed { self.new.sealed ≡ remove_entry (nat_eq block) self.old.sealed }
        ensures current { self.new.current ≡ self.old.current }
        ensures spare { self.old.spare ≤ self.new.spare }
        ensures writes { WritesAtMost self.old.writes self.new.writes 8 }
    {
        take_page(&mut self.rings, &mut self.tokens, block);
    }

    /// Takes the last sealed page out, where there is one; needs no memory.
    pub fn drop_last(&mut self)
        ensures sealed { (front : PageList) (page : ℕ × List ℕ) → self.old.sealed ≡ front ++ page ∷ [] → self.new.sealed ≡ front }
        ensures none { self.old.sealed ≡ [] → self.new.sealed ≡ [] }
        ensures current { self.new.current ≡ self.old.current }
        ensures spare { self.old.spare ≤ self.new.spare }
        ensures writes { WritesAtMost self.old.writes self.new.writes 8 }
    {
        if let Some((block, _)) = self.rings.last(SEALED) {
            take_page(&mut self.rings, &mut self.tokens, block);
        }
    }

    /// Makes all current pages sealed ones, in the place of a block's older page where it has one, in at most eight link
    /// writes, and eight more for each block that has an older page; needs no memory.
    pub fn seal(&mut self)
        ensures view { (image : Image) → under image self.new.sealed ≡ under (under image self.old.sealed) self.old.current }
        ensures current { self.new.current ≡ [] }
        ensures spare { self.old.spare ≤ self.new.spare }
        ensures writes { WritesAtMost self.old.writes self.new.writes (8 * (1 + count_covered self.old.sealed self.old.current)) }
    {
        if self.rings.first(CURRENT).is_none() {
            return;
        }
        take_covered(&mut self.rings, &mut self.tokens, &mut self.both);
        self.rings.splice(CURRENT, SEALED);
        self.tokens.seal();
    }

    /// Drops all current pages, in at most eight link writes; needs no memory.
    pub fn drop_current(&mut self)
        ensures current { self.new.current ≡ [] }
        ensures sealed { self.new.sealed ≡ self.old.sealed }
        ensures spare { self.old.spare ≤ self.new.spare }
        ensures writes { WritesAtMost self.old.writes self.new.writes 8 }
    {
        if self.rings.first(CURRENT).is_none() {
            return;
        }
        self.rings.release(CURRENT);
        self.tokens.drop_current();
        self.both.clear();
    }

    /// The first sealed page; `None` exactly where there is none.
    pub fn first_sealed(&self) -> Option<(u32, &[u8; 512])>
        ensures some { IfSome result (λ page. slice_get self.now.sealed 0 ≡ Some (page.0, page.1.now)) }
        ensures below { IfSome result (λ page. page.0 < 262144) }
        ensures none { IfNone result (self.now.sealed ≡ []) }
    {
        self.rings.first(SEALED)
    }

    /// The last sealed page; `None` exactly where there is none.
    pub fn last_sealed(&self) -> Option<(u32, &[u8; 512])>
        ensures some { IfSome result (λ page.
            slice_get self.now.sealed (length self.now.sealed - 1) ≡ Some (page.0, page.1.now)) }
        ensures below { IfSome result (λ page. page.0 < 262144) }
        ensures none { IfNone result (self.now.sealed ≡ []) }
    {
        self.rings.last(SEALED)
    }

    /// Sets every byte of every current page.
    pub fn wipe(&mut self, byte: u8)
        ensures current { self.new.current ≡ map (λ page. (page.0, wiped byte)) self.old.current }
        ensures sealed { self.new.sealed ≡ self.old.sealed }
        ensures spare { self.new.spare ≡ self.old.spare }
        ensures writes { self.new.writes ≡ self.old.writes }
    {
        self.rings.fill(CURRENT, byte);
    }

    /// Sets the bytes of the current page at a place, where there is one.
    pub fn replace(&mut self, nth: u32, bytes: &[u8; 512])
        ensures current { self.new.current ≡ page_replaced self.old.current nth bytes.now (slice_get self.old.current nth) }
        ensures sealed { self.new.sealed ≡ self.old.sealed }
        ensures spare { self.new.spare ≡ self.old.spare }
        ensures writes { self.new.writes ≡ self.old.writes }
    {
        self.rings.replace(CURRENT, nth, bytes);
    }
}

/// Takes the sealed page of a block out, where it has one.
fn take_page(rings: &mut Rings, tokens: &mut Tokens, block: u32)
    requires rings { AreRings rings.old.rings }
    requires tied { AreTied rings.old.rings tokens.old }
    ensures rings { AreRings rings.new.rings }
    ensures tied { AreTied rings.new.rings tokens.new }
    ensures current { ring_at rings.new.rings 1 ≡ ring_at rings.old.rings 1 }
    ensures sealed { contents (ring_at rings.new.rings 0) ≡ remove_entry (nat_eq block) (contents (ring_at rings.old.rings 0)) }
    ensures places { (other : ℕ)
        → place_at (ring_at rings.new.rings 0) other
        ≡ cond (nat_eq block other) None (place_at (ring_at rings.old.rings 0) other) }
    ensures ages { SameAges tokens.old tokens.new }
    ensures spare { (rings.old.spare ≤ rings.new.spare) × (spare tokens.old.map ≤ spare tokens.new.map) }
    ensures writes { WritesAtMost rings.old.writes rings.new.writes (8 * cond (is_some (place_at (ring_at rings.old.rings 0) block)) 1 0) }
{
    if let Some(token) = tokens.take_sealed(block) {
        rings.unlink(token);
    }
}

/// Takes out the sealed page of each block that has a current page.
fn take_covered(rings: &mut Rings, tokens: &mut Tokens, both: &mut Vec<u32>)
    requires rings { AreRings rings.old.rings }
    requires tied { AreTied rings.old.rings tokens.old }
    requires both { ListsBoth rings.old.rings both.old.items }
    ensures rings { AreRings rings.new.rings }
    ensures tied { AreTied rings.new.rings tokens.new }
    ensures current { ring_at rings.new.rings 1 ≡ ring_at rings.old.rings 1 }
    ensures view { (image : Image) → under_both image rings.new.rings ≡ under_both image rings.old.rings }
    ensures apart { (block : ℕ) → IsOver rings.new.rings block → place_at (ring_at rings.new.rings 0) block ≡ None }
    ensures both { (both.new.items ≡ []) × (vec_len both.new ≡ 0) × (vec_capacity both.old ≤ vec_capacity both.new) }
    ensures ages { SameAges tokens.old tokens.new }
    ensures spare { (rings.old.spare ≤ rings.new.spare) × (spare tokens.old.map ≤ spare tokens.new.map) }
    ensures writes { WritesAtMost rings.old.writes rings.new.writes
        (8 * count_covered (contents (ring_at rings.old.rings 0)) (contents (ring_at rings.old.rings 1))) }
{
    'both: while let Some(block) = both.pop() {
        take_page(rings, tokens, block);
    }
}
