ghost use Rattle.std.specs.Prelude.{◌≡◌, ◌+◌, ◌<◌, ◌≤◌, ◌||◌, [], Some, IfOk, length, nat_lt};
ghost use Rattle.std.specs.Result.{is_err};
ghost use Rattle.mb_edge.specs.Causes.{HasCause, Rose};
ghost use Rattle.mb_edge.specs.Schedule.{after_call, is_due};
ghost use Rattle.mb_edge.specs.Transfers.{Writes};

use crate::faults::Failed;
use crate::lists::Fails;
use crate::schedules::Schedule;
use crate::sinks::Sink;
use mb_kinds::NoMemory;
use std::alloc::Global;
use std::marker::Model;

/// A sink into memory, whose stated calls fail. Its room is taken when it is made, and a piece that does not
/// fit is a fault.
#[derive(Drop)]
pub struct MemSink {
    bytes: Vec<u8>,
    room: usize,
    writes: Schedule,
    faults: u64,
}

impl Model for MemSink {
    ghost use Rattle.std.specs.Prelude.{◌≤◌, vec_len, vec_capacity};
    ghost use Rattle.mb_edge.specs.Memory.{Output};

    ghost Value = { Output };

    ghost view = { λ a. record { taken = a.bytes.items; room = a.room; writes = a.writes; faults = a.faults } };

    ghost invariant = { λ a. (vec_len a.bytes ≤ a.room) × (a.room ≤ vec_capacity a.bytes) };
}

impl MemSink {
    /// A sink with room for so many bytes that fails the writes of `fails`, numbered from 1.
    pub fn new(alloc: Global, room: u32, fails: Fails) -> Result<MemSink, NoMemory>
        ensures { IfOk result (λ sink. sink ≡ record { taken = []; room = room; writes = record { made = 0; fails = fails }; faults = 0 }) }
    {
        Ok(MemSink {
            bytes: Vec::with_capacity(alloc, room as usize)?,
            room: room as usize,
            writes: Schedule::new(fails),
            faults: 0,
        })
    }

    /// The bytes that were taken.
    pub fn taken(&self) -> &[u8]
        ensures { result.now ≡ self.now.taken }
    {
        &self.bytes
    }
}

impl Sink for MemSink {
    ghost taken = { λ sink. Some sink.taken };

    ghost faults = { λ sink. sink.faults };

    fn write(&mut self, from: &[u8]) -> Result<usize, Failed>
        ensures bound { IfOk result (λ count. count ≤ length from.now) }
        ensures bytes { Writes (Some self.old.taken) (Some self.new.taken) result from.now }
        ensures stuck { IfOk result (λ count. count ≡ 0 → 0 < length from.now → Rose self.old.faults self.new.faults) }
        ensures cause { HasCause self.old.faults self.new.faults result }
        ensures due { is_err result ≡ (is_due self.old.writes || nat_lt self.old.room (length self.old.taken + length from.now)) }
        ensures next { self.new.writes ≡ after_call self.old.writes }
        ensures room { self.new.room ≡ self.old.room }
        ensures all { IfOk result (λ count. count ≡ length from.now) }
    {
        if self.writes.next_fails() || self.room - self.bytes.len() < from.len() {
            self.faults = self.faults.saturating_add(1);
            return Err(Failed);
        }
        self.bytes.extend_from_slice(from).unwrap();
        Ok(from.len())
    }
}
