ghost use Rattle.std.specs.Prelude.{None};

use mb_edge::{Failed, Sink};
use std::alloc::{AllocError, Global};

/// A sink that takes a byte at a time, and fails at one of its writes, numbered from 1.
#[derive(Drop)]
pub struct SlowSink {
    bytes: Vec<u8>,
    writes: u64,
    fails_at: u64,
    faults: u64,
}

impl SlowSink {
    pub fn new(alloc: Global, fails_at: u64) -> Result<SlowSink, AllocError> {
        Ok(SlowSink {
            bytes: Vec::new(alloc),
            writes: 0,
            fails_at,
            faults: 0,
        })
    }

    /// The bytes that it took.
    pub fn taken(&self) -> &[u8] {
        &self.bytes
    }
}

impl Sink for SlowSink {
    ghost taken = { λ _. None };

    ghost faults = { λ sink. sink.faults };

    fn write(&mut self, from: &[u8]) -> Result<usize, Failed> {
        let Some(byte) = from.first() else {
            return Ok(0);
        };
        self.writes = self.writes.saturating_add(1);
        if self.writes == self.fails_at || self.bytes.push(*byte).is_err() {
            self.faults = self.faults.saturating_add(1);
            return Err(Failed);
        }
        Ok(1)
    }
}
