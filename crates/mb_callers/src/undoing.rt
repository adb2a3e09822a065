ghost use Rattle.std.specs.Prelude.{◌≡◌, ◌≤◌, ◌+◌, ◌++◌, [], ℕ, length};
ghost use Rattle.mb_cache.specs.State.{with_pins};
ghost use Rattle.mb_cache.specs.Stamps.{stamp_of};
ghost use Rattle.mb_callers.specs.Pins.{pin_steps};
ghost use Rattle.mb_core_spec.specs.Callers.{total};
ghost use Rattle.mb_core_spec.specs.Events.{GivesBack, first_undo, floor_undo};
ghost use Rattle.mb_core_spec.specs.Flights.{is_pin};

use mb_cache::Cache;
use mb_copies::Reads;
use mb_edge::Disk;
use mb_gate::{Ulog, Undo};

/// Pins the blocks that were read, and notes it in an undo log; needs no memory.
pub(crate) fn note_pins<D: Disk>(undo: &mut Ulog, cache: &mut Cache<D>, reads: &Reads)
    requires log { length reads.now ≤ undo.old.spare }
    requires room { length reads.now ≤ cache.old.room.pins }
    ensures log { undo.new.items ≡ undo.old.items ++ pin_steps reads.now }
    ensures rest { cache.new ≡ with_pins cache.old cache.new }
    ensures pins { GivesBack cache.new.pins cache.old.pins (pin_steps reads.now) }
    ensures room { length undo.old.items + undo.old.spare ≤ length undo.new.items + undo.new.spare }
{
    for at in 0..reads.len() {
        let (block, _) = reads.at(at);
        let Ok(()) = cache.pin(block) else {
            unreachable!()
        };
        let Ok(()) = undo.push(Undo::Pinned(block)) else {
            unreachable!()
        };
    }
}

/// Takes back what stands in an undo log: the pins. Its room is kept, that of its steps with it. Needs no memory.
pub(crate) fn give_back<D: Disk>(undo: &mut Ulog, cache: &mut Cache<D>)
    requires { (block : ℕ) → total (is_pin block) undo.old.items ≤ stamp_of cache.old.pins block }
    ensures log { undo.new.items ≡ [] }
    ensures rest { cache.new ≡ with_pins cache.old cache.new }
    ensures pins { GivesBack cache.old.pins cache.new.pins undo.old.items }
    ensures room { length undo.old.items + undo.old.spare ≤ undo.new.spare }
{
    while let Some(step) = undo.pop() {
        match step {
            Undo::Pinned(block) => cache.unpin(block),
            Undo::Entered | Undo::Reserved(_) | Undo::Floor => {}
        }
    }
}

/// Notes in an empty undo log that a call entered, and which descriptor it reserved; needs no memory.
pub(crate) fn note_entered(undo: &mut Ulog, reserved: Option<u16>)
    requires empty { undo.old.items ≡ [] }
    requires room { 3 ≤ undo.old.spare }
    ensures log { undo.new.items ≡ first_undo reserved }
    ensures room { 3 ≤ length undo.new.items + undo.new.spare }
    ensures floor { 1 ≤ undo.new.spare }
{
    let Ok(()) = undo.push(Undo::Entered) else {
        unreachable!()
    };
    if let Some(fd) = reserved {
        let Ok(()) = undo.push(Undo::Reserved(fd)) else {
            unreachable!()
        };
    }
}

/// Notes in an undo log that a call took the right to commit alone, where it has it; needs no memory.
pub(crate) fn note_floor(undo: &mut Ulog, caller: u8, floor: Option<u8>)
    requires { 1 ≤ undo.old.spare }
    ensures log { undo.new.items ≡ undo.old.items ++ floor_undo caller floor }
    ensures room { length undo.old.items + undo.old.spare ≤ length undo.new.items + undo.new.spare }
{
    if floor == Some(caller) {
        let Ok(()) = undo.push(Undo::Floor) else {
            unreachable!()
        };
    }
}
