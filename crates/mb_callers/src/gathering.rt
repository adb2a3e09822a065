ghost use Rattle.std.specs.Prelude.{◌≡◌, ◌≤◌, ◌+◌, ◌++◌, ◌∷◌, [], Some, length, OnOk, OnErr, IsErrOf};
ghost use Rattle.mb_cache.specs.State.{with_pins};
ghost use Rattle.mb_callers.specs.Pins.{pin_steps};
ghost use Rattle.mb_copies.specs.Reads.{stored};
ghost use Rattle.mb_callers.specs.Tables.{as_copy, held_if};
ghost use Rattle.mb_core_spec.specs.Events.{GivesBack};
ghost use Rattle.mb_gate.specs.declared.ulogs.Undo.TheVariants as undo_step;

use crate::tables::{TablePlace, TablesNow};
use crate::undoing::note_pins;
use mb_cache::Cache;
use mb_copies::{Copies, Reads};
use mb_edge::{Disk, NoMemory};
use mb_gate::{Ulog, Undo};
use std::alloc::Global;

/// Pins the blocks that were read, notes it in an undo log, and puts their copies into both lists; or changes nothing but
/// what was read.
pub(crate) fn keep_blocks<D: Disk>(
    undo: &mut Ulog,
    mine: &mut Copies,
    pages: &mut Copies,
    cache: &mut Cache<D>,
    reads: &mut Reads,
) -> Result<(), NoMemory>
    ensures ok { OnOk result ((undo.new.items ≡ undo.old.items ++ pin_steps reads.old)
        × (mine.new.items ≡ stored mine.old.items reads.old)
        × (pages.new.items ≡ stored pages.old.items reads.old)) }
    ensures pins { OnOk result (GivesBack cache.new.pins cache.old.pins (pin_steps reads.old)) }
    ensures err { OnErr result ((undo.new.items ≡ undo.old.items) × (mine.new.items ≡ mine.old.items)
        × (pages.new.items ≡ pages.old.items) × (cache.new.pins ≡ cache.old.pins)) }
    ensures rest { cache.new ≡ with_pins cache.old cache.new }
    ensures room { length undo.old.items + undo.old.spare ≤ length undo.new.items + undo.new.spare }
{
    let more = reads.len();
    pages.reserve(more)?;
    mine.reserve(more)?;
    undo.reserve(more)?;
    cache.reserve_pins(more)?;
    note_pins(undo, cache, reads);
    pages.store(reads);
    mine.take(reads);
    Ok(())
}

/// Pins block 0, notes it in an undo log, and puts a copy of the tables into both places; or changes nothing.
pub(crate) fn keep_tables<D: Disk>(
    alloc: Global,
    undo: &mut Ulog,
    mine: &mut TablePlace,
    pages: &mut TablePlace,
    cache: &mut Cache<D>,
    now: &TablesNow<'_>,
) -> Result<(), NoMemory>
    ensures ok { OnOk result ((undo.new.items ≡ undo.old.items ++ undo_step.Pinned 0 ∷ [])
        × (held_if mine.new.there mine.new.held ≡ Some (as_copy now.now))
        × (held_if pages.new.there pages.new.held ≡ Some (as_copy now.now))) }
    ensures pins { OnOk result (GivesBack cache.new.pins cache.old.pins (undo_step.Pinned 0 ∷ [])) }
    ensures err { OnErr result ((undo.new.items ≡ undo.old.items) × (mine.new ≡ mine.old)
        × (pages.new ≡ pages.old) × (cache.new.pins ≡ cache.old.pins)) }
    ensures rest { cache.new ≡ with_pins cache.old cache.new }
    ensures room { length undo.old.items + undo.old.spare ≤ length undo.new.items + undo.new.spare }
{
    let fresh_pages = pages.prepare(alloc, now)?;
    let fresh_mine = mine.prepare(alloc, now)?;
    undo.reserve(1)?;
    cache.reserve_pins(1)?;
    pin_tables(undo, cache);
    mine.put(now, fresh_mine);
    pages.put(now, fresh_pages);
    Ok(())
}

fn pin_tables<D: Disk>(undo: &mut Ulog, cache: &mut Cache<D>)
    requires log { 1 ≤ undo.old.spare }
    requires room { 1 ≤ cache.old.room.pins }
    ensures log { undo.new.items ≡ undo.old.items ++ undo_step.Pinned 0 ∷ [] }
    ensures rest { cache.new ≡ with_pins cache.old cache.new }
    ensures pins { GivesBack cache.new.pins cache.old.pins (undo_step.Pinned 0 ∷ []) }
    ensures room { length undo.old.items + undo.old.spare ≤ length undo.new.items + undo.new.spare }
{
    let Ok(()) = cache.pin(0) else { unreachable!() };
    let Ok(()) = undo.push(Undo::Pinned(0)) else {
        unreachable!()
    };
}
