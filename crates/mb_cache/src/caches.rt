ghost use Rattle.std.specs.Prelude.{◌≡◌, ◌≤◌, ◌<◌, ◌+◌, ◌*◌, [], None, length, OnOk, OnErr, IfOk, IfErr, IfSome, IsOk};
ghost use Rattle.mb_edge.specs.Blocks.{GivesBlock};
ghost use Rattle.mb_kinds.specs.Image.{Image};
ghost use Rattle.mb_cache.specs.Clean.{AreClean, Rereads, read_as};
ghost use Rattle.mb_cache.specs.Pages.{WritesAtMost, page_at, under, count_covered, installed, page_stroke, pages_damaged};
ghost use Rattle.mb_cache.specs.Stamps.{LowersOne, RaisesOne, stamp_of, raised_by};
ghost use Rattle.mb_cache.specs.declared.answers.ReadFault.TheVariants as fault;
ghost use Rattle.mb_cache.specs.State.{after_reads, fresh_cache, moved_room, seen, Flushes, ReadHasCause, ReadsBelow, ReadsThrough, with_pins};

use crate::answers::{Flushed, ReadFault};
use crate::clean::CleanPages;
use crate::pins::PinMap;
use crate::stamps::StampMap;
use mb_edge::{Damage, Disk, NoMemory, Stroke};
use mb_iface::Changes;
use mb_layers::Layers;
use std::alloc::Global;
use std::marker::Model;

/// A disk under its checkpointed pages, which wait to be written back, and its current pages, those of the present
/// epoch, with how often each block was installed and how many calls in flight pin it; and at most 1,024 clean pages, which
/// are as the disk holds them, so that a block is not read anew for each call. A contract sees those parts, the room, which
/// is how many changed blocks and how many pins are taken without memory, and the count of link writes. The room for a
/// changed block serves for its install and for the checkpoint after it.
pub struct Cache<D: Disk> {
    disk: D,
    layers: Layers,
    stamps: StampMap,
    pins: PinMap,
    clean: CleanPages,
}

impl<D: Disk> Model for Cache<D> {
    ghost use Rattle.std.specs.Coded.{codes, coded_ℕ};
    ghost use Rattle.std.specs.Prelude.{min};
    ghost use Rattle.mb_cache.specs.Clean.{AreClean};
    ghost use Rattle.mb_cache.specs.State.{CacheState};

    ghost Value = { CacheState D };

    ghost view = { λ c. record {
      disk = c.disk;
      sealed = c.layers.sealed;
      current = c.layers.current;
      stamps = c.stamps.items;
      pins = c.pins.items;
      room = record { pages = min c.layers.spare c.stamps.spare; pins = c.pins.spare; writes = c.layers.writes; clean = c.clean };
    } };

    ghost invariant = { λ c. AreClean (D.told c.disk) c.clean };
}

impl<D: Disk> Cache<D> {
    /// No page and no pin, no clean page, and every stamp 0. The only error is want of memory, with the disk back.
    pub fn new(alloc: Global, disk: D) -> Result<Cache<D>, D>
        ensures begun { IfOk result (λ cache. cache ≡ fresh_cache disk cache.room) }
        ensures clean { IfOk result (λ cache. cache.room.clean ≡ []) }
        ensures back { IfErr result (λ same. same ≡ disk) }
    {
        let Ok(layers) = Layers::new(alloc) else {
            return Err(disk);
        };
        let Ok(clean) = CleanPages::new(alloc) else {
            return Err(disk);
        };
        Ok(Cache {
            disk,
            layers,
            stamps: StampMap::new(alloc),
            pins: PinMap::new(alloc),
            clean,
        })
    }

    /// Gives the disk back. The pages are dropped.
    pub fn into_disk(self) -> D
        ensures { result ≡ self.disk }
    {
        let Cache {
            disk,
            layers: _,
            stamps: _,
            pins: _,
            clean: _,
        } = self;
        disk
    }

    /// A block as it is seen: its current page, else its checkpointed one, else the disk's block. A block that has a clean
    /// page is not read from the disk; one that is read gets a clean page, where memory suffices. The only error is `Device`,
    /// and it comes only where the disk's count of faults rose; `bytes` may then hold anything.
    pub fn read(&mut self, block: u32, bytes: &mut [u8; 512]) -> Result<(), ReadFault>
        ensures bytes { OnOk result (IfSome (seen D.told self.old) (λ view. bytes.new ≡ view.at block)) }
        ensures rest { self.new ≡ after_reads self.old self.new }
        ensures told { D.told self.new.disk ≡ D.told self.old.disk }
        ensures cause { ReadHasCause (D.faults self.old.disk) (D.faults self.new.disk) result }
        ensures only { IfErr result (λ cause. cause ≡ fault.Device) }
        ensures clean { ReadsThrough self.old self.new block (read_as result bytes.new) }
        ensures held { AreClean (D.told self.new.disk) self.new.room.clean }
    {
        if let Some(page) = self.layers.get(block) {
            *bytes = *page;
            return Ok(());
        }
        self.read_below(block, bytes)
    }

    /// The disk's block, by its clean page where it has one.
    fn read_below(&mut self, block: u32, bytes: &mut [u8; 512]) -> Result<(), ReadFault>
        ensures bytes { OnOk result (GivesBlock (D.told self.old.disk) block bytes.new) }
        ensures rest { self.new ≡ after_reads self.old self.new }
        ensures told { D.told self.new.disk ≡ D.told self.old.disk }
        ensures cause { ReadHasCause (D.faults self.old.disk) (D.faults self.new.disk) result }
        ensures only { IfErr result (λ cause. cause ≡ fault.Device) }
        ensures clean { ReadsBelow self.old self.new block (read_as result bytes.new) }
        ensures held { AreClean (D.told self.new.disk) self.new.room.clean }
    {
        if self.clean.read(block, bytes) {
            return Ok(());
        }
        self.read_disk(block, bytes)
    }

    /// The disk's block, of a block that has no clean page; it gets one, where memory suffices.
    fn read_disk(&mut self, block: u32, bytes: &mut [u8; 512]) -> Result<(), ReadFault>
        requires { page_at self.old.room.clean block ≡ None }
        ensures bytes { OnOk result (GivesBlock (D.told self.old.disk) block bytes.new) }
        ensures rest { self.new ≡ after_reads self.old self.new }
        ensures told { D.told self.new.disk ≡ D.told self.old.disk }
        ensures cause { ReadHasCause (D.faults self.old.disk) (D.faults self.new.disk) result }
        ensures only { IfErr result (λ cause. cause ≡ fault.Device) }
        ensures clean { Rereads None None block self.old.disk self.old.room.clean self.new.disk self.new.room.clean (read_as result bytes.new) }
        ensures held { AreClean (D.told self.new.disk) self.new.room.clean }
    {
        let Ok(()) = self.disk.read(block, bytes) else {
            return Err(ReadFault::Device);
        };
        self.clean.put(block, bytes);
        Ok(())
    }

    /// Makes room for an install of so many blocks and for the checkpoint after it. The only error is want of memory,
    /// and it does not come where there is room already.
    pub fn reserve(&mut self, blocks: usize) -> Result<(), NoMemory>
        ensures same { self.new ≡ record self.old { room = moved_room self.old.room self.new.room } }
        ensures ok { OnOk result (blocks ≤ self.new.room.pages) }
        ensures kept { self.old.room.pages ≤ self.new.room.pages }
        ensures sure { blocks ≤ self.old.room.pages → IsOk result }
    {
        self.layers.reserve(blocks)?;
        self.stamps.reserve(blocks)?;
        Ok(())
    }

    /// Makes each changed block a current page and raises its stamp by one; a stamp of 2^64 - 1 stays. A block that is
    /// current keeps its place in the list, and another one is appended, in the order of `changes`. Needs no memory.
    pub fn install(&mut self, changes: &Changes)
        requires { length changes.now ≤ self.old.room.pages }
        ensures installed { self.new ≡ record self.old {
          current = installed self.old.current changes.now;
          stamps = raised_by self.old.stamps changes.now;
          room = self.new.room;
        } }
        ensures pages { self.old.room.pages ≤ self.new.room.pages + length changes.now }
        ensures pins { self.new.room.pins ≡ self.old.room.pins }
        ensures clean { self.new.room.clean ≡ self.old.room.clean }
    {
        install_pages(&mut self.layers, changes);
        self.stamps.raise_all(changes);
    }

    /// The stamp of a block: how often it was installed.
    pub fn stamp(&self, block: u32) -> u64
        ensures { result ≡ stamp_of self.now.stamps block }
    {
        self.stamps.of(block)
    }

    /// Makes room for so many more pins. The only error is want of memory, and it does not come where there is room
    /// already.
    pub fn reserve_pins(&mut self, more: usize) -> Result<(), NoMemory>
        ensures same { self.new ≡ record self.old { room = record self.old.room { pins = self.new.room.pins } } }
        ensures ok { OnOk result (more ≤ self.new.room.pins) }
        ensures kept { self.old.room.pins ≤ self.new.room.pins }
        ensures sure { more ≤ self.old.room.pins → IsOk result }
    {
        self.pins.reserve(more)
    }

    /// One pin more on a block. The only error is want of memory, which does not come where there is room; the pins are
    /// then as before.
    pub fn pin(&mut self, block: u32) -> Result<(), NoMemory>
        ensures same { self.new ≡ with_pins self.old self.new }
        ensures ok { OnOk result (RaisesOne self.old.pins self.new.pins block) }
        ensures err { OnErr result (self.new.pins ≡ self.old.pins) }
        ensures sure { 0 < self.old.room.pins → IsOk result }
        ensures spare { self.old.room.pins ≤ self.new.room.pins + 1 }
    {
        self.pins.pin(block)
    }

    /// One pin less on a block that is pinned; needs no memory.
    pub fn unpin(&mut self, block: u32)
        requires { 0 < stamp_of self.old.pins block }
        ensures same { self.new ≡ with_pins self.old self.new }
        ensures pins { LowersOne self.old.pins self.new.pins block }
        ensures spare { self.old.room.pins ≤ self.new.room.pins }
    {
        self.pins.unpin(block);
    }

    /// Makes all current pages checkpointed ones, in the place of a block's older page where it has one, in at most eight
    /// link writes, and eight more for each block that has an older page; needs no memory.
    pub fn seal(&mut self)
        ensures rest { self.new ≡ record self.old {
          sealed = self.new.sealed;
          current = [];
          room = moved_room self.old.room self.new.room;
        } }
        ensures view { (image : Image) → under image self.new.sealed ≡ under (under image self.old.sealed) self.old.current }
        ensures kept { self.old.room.pages ≤ self.new.room.pages }
        ensures writes { WritesAtMost self.old.room.writes self.new.room.writes (8 * (1 + count_covered self.old.sealed self.old.current)) }
    {
        self.layers.seal();
    }

    /// Drops all current pages, in at most eight link writes; needs no memory.
    pub fn drop_current(&mut self)
        ensures dropped { self.new ≡ record self.old { current = []; room = moved_room self.old.room self.new.room } }
        ensures kept { self.old.room.pages ≤ self.new.room.pages }
        ensures writes { WritesAtMost self.old.room.writes self.new.room.writes 8 }
    {
        self.layers.drop_current();
    }

    /// Forgets the clean pages: each block that has no page is read from the disk again. Needs no memory.
    pub fn forget_clean(&mut self)
        ensures { self.new ≡ record self.old { room = record self.old.room { clean = [] } } }
    {
        self.clean.clear();
    }

    /// Writes one checkpointed page back: `Clean` exactly where none waits, and `Device` only where the disk's count of
    /// faults rose, with the page still waiting. A page that was written is a clean one from then on, where memory suffices;
    /// a write that failed leaves its block without one.
    pub fn flush_one(&mut self) -> Flushed
        ensures flushes { Flushes D.told D.faults self.old self.new result }
        ensures kept { self.old.room.pages ≤ self.new.room.pages }
        ensures pins { self.new.room.pins ≡ self.old.room.pins }
    {
        let Some((block, bytes)) = self.layers.last_sealed() else {
            return Flushed::Clean;
        };
        self.clean.remove(block);
        match self.disk.write(block, bytes) {
            Ok(()) => {
                self.clean.put(block, bytes);
                self.layers.drop_last();
                Flushed::One
            }
            Err(_) => Flushed::Device,
        }
    }

    /// Does the strokes of a fault, in order, to the current pages. It changes bytes alone: not which blocks are current,
    /// in which order, nor any stamp. Needs no memory.
    pub fn damage(&mut self, damage: &Damage)
        ensures { self.new ≡ record self.old { current = pages_damaged self.old.current damage.now } }
    {
        damage_pages(&mut self.layers, damage);
    }
}

/// Makes each changed block a current page, in order; needs no memory.
fn install_pages(layers: &mut Layers, changes: &Changes)
    requires { length changes.now ≤ layers.old.spare }
    ensures current { layers.new.current ≡ installed layers.old.current changes.now }
    ensures sealed { layers.new.sealed ≡ layers.old.sealed }
    ensures spare { layers.old.spare ≤ layers.new.spare + length changes.now }
{
    for at in 0..changes.len() {
        let (block, bytes) = changes.at(at);
        layers.put(block, bytes);
    }
}

/// Does the strokes of a fault, in order, to the current pages.
fn damage_pages(layers: &mut Layers, damage: &Damage)
    ensures { layers.new ≡ record layers.old { current = pages_damaged layers.old.current damage.now } }
{
    for stroke in damage.as_slice() {
        do_stroke(layers, stroke);
    }
}

fn do_stroke(layers: &mut Layers, stroke: &Stroke)
    ensures { layers.new ≡ record layers.old { current = page_stroke layers.old.current stroke.now } }
{
    match stroke {
        Stroke::Wipe(byte) => layers.wipe(*byte),
        Stroke::Page { nth, bytes } => layers.replace(*nth, bytes),
        Stroke::Count { ino: _, count: _ } => {}
    }
}
