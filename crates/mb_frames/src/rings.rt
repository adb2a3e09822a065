//! Rings of pages, linked by raw pointers.
ghost use Rattle.std.specs.Prelude.{◌≡◌, ◌≢◌, ◌+◌, ◌-◌, ◌*◌, ◌<◌, ◌≤◌, [], ◌∷◌, ◌++◌, map, length, max, min, replicate, IfOk, IsOk, OnOk, OnErr, IfSome, IfNone, MatchOption, Some, slice_get};
ghost use denote.RawPtr.{Ptr};
ghost use Rattle.mb_frames.specs.Pages.{page, ring_at, contents, with_ring, standing, stands_in, Stands, block_of, bytes_of, without, rewritten, filled, replaced, NamedAt, SameAt};

use crate::boxes::boxes;
use crate::links::Links;
use crate::node::NodePtr;
use crate::token::Token;
use mb_kinds::NoMemory;
use std::alloc::Global;
use std::marker::Model;

/// Rings of pages of 512 bytes, by their numbers, and spare pages. Clauses see the rings as lists of pages, the spare
/// pages as a number, and the count of link writes.
pub struct Rings {
    links: Links,
    // The heads of the spare pages and of the rings.
    spare: NodePtr,
    heads: Vec<NodePtr>,
    // Every node, the oldest first: by this list each is freed once.
    all: Vec<NodePtr>,
    alloc: Global,
}

impl Model for Rings {
    ghost use Rattle.std.specs.Prelude.{map};
    ghost use Rattle.mb_frames.specs.Pages.{Shelf};
    ghost use Rattle.mb_frames.specs.Walks.{shelf, Sound};

    ghost Value = { Shelf };

    ghost view = { λ r. shelf r.links.nodes.cells r.spare.ptr (map (λ n. n.ptr) r.heads.items) r.links.writes };

    ghost invariant = { λ r. Sound r.links.nodes.cells r.spare.ptr (map (λ n. n.ptr) r.heads.items) (map (λ n. n.ptr) r.all.items) };
}

impl Drop for Rings {
    // Each node is freed once, whatever ring it stands in.
    fn drop(self) {
        let Rings {
            links,
            spare: _,
            heads: _,
            all,
            alloc,
        } = self;
        let Links { nodes, writes: _ } = links;
        let mut nodes = nodes;
        let mut all = all;
        'all: while let Some(at) = all.pop() {
            let _freed = nodes.give_back(alloc, at);
        }
        nodes.finish();
    }
}

impl Rings {
    /// So many empty rings, and no spare page. It is refused where memory for the rings' heads is wanting.
    pub fn new(alloc: Global, count: u32) -> Result<Rings, NoMemory>
        ensures { IfOk result (λ r. (r.rings ≡ replicate count []) × (r.spare ≡ 0) × (r.writes ≡ 0)) }
    {
        let rings = count as usize;
        let mut nodes = boxes(alloc, rings + 1)?;
        let mut heads = Vec::with_capacity(alloc, rings)?;
        let mut all = Vec::with_capacity(alloc, rings + 1)?;
        let mut links = Links::new();
        let Some(node) = nodes.pop() else {
            unreachable!()
        };
        let spare = links.add_head(node);
        all.push(spare).unwrap();
        'heads: while let Some(node) = nodes.pop() {
            let head = links.add_head(node);
            heads.push(head).unwrap();
            all.push(head).unwrap();
        }
        links.writes = 0;
        Ok(Rings {
            links,
            spare,
            heads,
            all,
            alloc,
        })
    }

    /// Gives at least so many spare pages, in at most four link writes for each that it adds. It is refused where memory
    /// for them is wanting, and never where there are so many.
    pub fn reserve(&mut self, pages: u32) -> Result<(), NoMemory>
        ensures rings { self.new.rings ≡ self.old.rings }
        ensures spare { OnOk result (self.new.spare ≡ max self.old.spare pages) }
        ensures refused { OnErr result (self.new ≡ self.old) }
        ensures sure { pages ≤ self.old.spare → IsOk result }
        ensures writes { (self.old.writes ≤ self.new.writes)
            × (self.new.writes ≤ self.old.writes + 4 * (self.new.spare - self.old.spare)) }
    {
        let have = self.spare(pages);
        let missing = (pages - have) as usize;
        if missing == 0 {
            return Ok(());
        }
        let mut nodes = boxes(self.alloc, missing)?;
        self.all.reserve(missing)?;
        'pages: while let Some(node) = nodes.pop() {
            let page = self.links.add(node, self.spare);
            self.all.push(page).unwrap();
        }
        Ok(())
    }

    /// The number of spare pages, counted up to `most`.
    pub fn spare(&self, most: u32) -> u32
        ensures { result ≡ min self.now.spare most }
    {
        self.links.walk(self.spare, most).1
    }

    /// The bytes of the page at `index` of the ring, if it has so many.
    pub fn page(&self, ring: u32, index: u32) -> Option<&[u8; 512]>
        requires { ring < length self.now.rings }
        ensures { MatchOption result (length (ring_at self.now.rings ring) ≤ index) (λ b.
            slice_get (map (λ g. g.bytes) (ring_at self.now.rings ring)) index ≡ Some b.now) }
    {
        let (at, _steps) = self.links.walk(self.heads[ring as usize], index);
        if self.links.is_head(at) {
            return None;
        }
        Some(self.links.bytes(at))
    }

    /// The block and the bytes of the first page of the ring; `None` exactly where it has none.
    pub fn first(&self, ring: u32) -> Option<(u32, &[u8; 512])>
        requires { ring < length self.now.rings }
        ensures some { IfSome result (λ page. slice_get (contents (ring_at self.now.rings ring)) 0 ≡ Some (page.0, page.1.now)) }
        ensures none { IfNone result (ring_at self.now.rings ring ≡ []) }
    {
        let at = self.links.next(self.heads[ring as usize]);
        if self.links.is_head(at) {
            return None;
        }
        Some((self.links.block(at), self.links.bytes(at)))
    }

    /// The block and the bytes of the last page of the ring; `None` exactly where it has none.
    pub fn last(&self, ring: u32) -> Option<(u32, &[u8; 512])>
        requires { ring < length self.now.rings }
        ensures some { IfSome result (λ page.
            slice_get (contents (ring_at self.now.rings ring)) (length (ring_at self.now.rings ring) - 1)
            ≡ Some (page.0, page.1.now)) }
        ensures none { IfNone result (ring_at self.now.rings ring ≡ []) }
    {
        let at = self.links.prev(self.heads[ring as usize]);
        if self.links.is_head(at) {
            return None;
        }
        Some((self.links.block(at), self.links.bytes(at)))
    }

    /// Appends a page of that block to the ring, in a spare page, in at most eight link writes.
    pub fn put(&mut self, ring: u32, block: u32, bytes: &[u8; 512]) -> Token
        requires ring { ring < length self.old.rings }
        requires spare { 0 < self.old.spare }
        ensures rings { self.new.rings
            ≡ with_ring self.old.rings ring (ring_at self.old.rings ring ++ page result block bytes.now ∷ []) }
        ensures spare { self.new.spare + 1 ≡ self.old.spare }
        ensures fresh { standing result self.old.rings ≡ 0 }
        ensures token { Stands self.new.rings result × (block_of result self.new.rings ≡ block)
            × (bytes_of result self.new.rings ≡ bytes.now) }
        ensures others { (p : Ptr) → p ≢ result → SameAt self.old.rings self.new.rings p }
        ensures writes { (self.old.writes ≤ self.new.writes) × (self.new.writes ≤ self.old.writes + 8) }
    {
        let head = self.heads[ring as usize];
        let first = self.links.next(self.spare);
        self.links.store(first, block, bytes);
        self.links.move_run(first, first, head);
        Token { at: first }
    }

    /// Takes the token's page out of its ring, in at most eight link writes. The page is spare from then on.
    pub fn unlink(&mut self, token: Token)
        requires { Stands self.old.rings token }
        ensures rings { self.new.rings ≡ map (without token) self.old.rings }
        ensures spare { self.new.spare ≡ self.old.spare + 1 }
        ensures gone { standing token self.new.rings ≡ 0 }
        ensures others { (p : Ptr) → p ≢ token → SameAt self.old.rings self.new.rings p }
        ensures writes { (self.old.writes ≤ self.new.writes) × (self.new.writes ≤ self.old.writes + 8) }
    {
        self.links.move_run(token.at, token.at, self.spare);
    }

    /// Appends the whole list of `from` to that of `to`, and leaves `from` empty, in at most eight link writes.
    pub fn splice(&mut self, from: u32, to: u32)
        requires rings { (from < length self.old.rings) × (to < length self.old.rings) }
        requires differ { from ≢ to }
        ensures rings { self.new.rings
            ≡ with_ring (with_ring self.old.rings from []) to (ring_at self.old.rings to ++ ring_at self.old.rings from) }
        ensures spare { self.new.spare ≡ self.old.spare }
        ensures tokens { (p : Ptr) → SameAt self.old.rings self.new.rings p }
        ensures writes { (self.old.writes ≤ self.new.writes) × (self.new.writes ≤ self.old.writes + 8) }
    {
        let head = self.heads[from as usize];
        let first = self.links.next(head);
        if self.links.is_head(first) {
            return;
        }
        let last = self.links.prev(head);
        let target = self.heads[to as usize];
        self.links.move_run(first, last, target);
    }

    /// Empties the ring, in at most eight link writes. Its pages are spare from then on.
    pub fn release(&mut self, ring: u32)
        requires { ring < length self.old.rings }
        ensures rings { self.new.rings ≡ with_ring self.old.rings ring [] }
        ensures spare { self.new.spare ≡ self.old.spare + length (ring_at self.old.rings ring) }
        ensures others { (p : Ptr) → stands_in p (ring_at self.old.rings ring) ≡ 0 → SameAt self.old.rings self.new.rings p }
        ensures writes { (self.old.writes ≤ self.new.writes) × (self.new.writes ≤ self.old.writes + 8) }
    {
        let head = self.heads[ring as usize];
        let first = self.links.next(head);
        if self.links.is_head(first) {
            return;
        }
        let last = self.links.prev(head);
        self.links.move_run(first, last, self.spare);
    }

    /// The block of the token's page.
    pub fn block(&self, token: &Token) -> u32
        requires { Stands self.now.rings token.now }
        ensures { result ≡ block_of token.now self.now.rings }
    {
        self.links.block(token.at)
    }

    /// The bytes of the token's page.
    pub fn get(&self, token: &Token) -> &[u8; 512]
        requires { Stands self.now.rings token.now }
        ensures { result.now ≡ bytes_of token.now self.now.rings }
    {
        self.links.bytes(token.at)
    }

    /// Replaces the bytes of the token's page.
    pub fn write(&mut self, token: &Token, bytes: &[u8; 512])
        requires { Stands self.old.rings token.now }
        ensures rings { self.new.rings ≡ map (map (rewritten token.now bytes.now)) self.old.rings }
        ensures token { Stands self.new.rings token.now × (bytes_of token.now self.new.rings ≡ bytes.now) }
        ensures named { (p : Ptr) → NamedAt self.old.rings self.new.rings p }
        ensures others { (p : Ptr) → p ≢ token.now → SameAt self.old.rings self.new.rings p }
        ensures same { (self.new.spare ≡ self.old.spare) × (self.new.writes ≡ self.old.writes) }
    {
        self.links.write(token.at, bytes);
    }

    /// Sets every byte of every page of the ring. No link is written.
    pub fn fill(&mut self, ring: u32, byte: u8)
        requires { ring < length self.old.rings }
        ensures rings { self.new.rings ≡ with_ring self.old.rings ring (map (filled byte) (ring_at self.old.rings ring)) }
        ensures named { (p : Ptr) → NamedAt self.old.rings self.new.rings p }
        ensures others { (p : Ptr) → stands_in p (ring_at self.old.rings ring) ≡ 0 → SameAt self.old.rings self.new.rings p }
        ensures same { (self.new.spare ≡ self.old.spare) × (self.new.writes ≡ self.old.writes) }
    {
        let bytes = [byte; 512];
        self.links.fill(self.heads[ring as usize], &bytes);
    }

    /// Replaces the bytes of the page at `index` of the ring, if it has so many. No link is written.
    pub fn replace(&mut self, ring: u32, index: u32, bytes: &[u8; 512])
        requires { ring < length self.old.rings }
        ensures rings { self.new.rings ≡ with_ring self.old.rings ring (replaced (ring_at self.old.rings ring) index bytes.now) }
        ensures named { (p : Ptr) → NamedAt self.old.rings self.new.rings p }
        ensures others { (p : Ptr) → stands_in p (ring_at self.old.rings ring) ≡ 0 → SameAt self.old.rings self.new.rings p }
        ensures same { (self.new.spare ≡ self.old.spare) × (self.new.writes ≡ self.old.writes) }
    {
        let (at, _steps) = self.links.walk(self.heads[ring as usize], index);
        if !self.links.is_head(at) {
            self.links.write(at, bytes);
        }
    }
}
