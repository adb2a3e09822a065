ghost use Rattle.std.specs.Prelude.{◌≡◌, ◌≤◌, List, Some, IfOk, IsOk, length, min, take, drop};
ghost use Rattle.std.specs.Result.{is_err};
ghost use Rattle.mb_edge.specs.Causes.{HasCause};
ghost use Rattle.mb_edge.specs.Schedule.{after_call, is_due};
ghost use Rattle.mb_edge.specs.Transfers.{Reads};

use crate::faults::Failed;
use crate::lists::{Bytes, Fails};
use crate::schedules::Schedule;
use crate::sources::Source;
use std::marker::Model;

/// A source over bytes in memory that never fails. A contract sees the bytes that are left.
#[derive(Drop)]
pub struct SureSource {
    bytes: Vec<u8>,
    at: usize,
}

impl Model for SureSource {
    ghost use Rattle.std.specs.Prelude.{drop, ◌≤◌, vec_len, List, ℕ};

    ghost Value = { List ℕ };

    ghost view = { λ a. drop a.at a.bytes.items };

    ghost invariant = { λ a. a.at ≤ vec_len a.bytes };
}

impl SureSource {
    /// A source of these bytes; needs no memory.
    pub fn new(bytes: Bytes) -> SureSource
        ensures { result ≡ bytes }
    {
        SureSource {
            bytes: bytes.into_vec(),
            at: 0,
        }
    }
}

impl Source for SureSource {
    ghost left = { λ source. Some source };

    ghost faults = { λ _. 0 };

    fn read(&mut self, into: &mut [u8]) -> Result<usize, Failed>
        ensures bound { IfOk result (λ count. count ≤ length into.new) }
        ensures bytes { Reads (Some self.old) (Some self.new) result into.new }
        ensures cause { HasCause 0 0 result }
        ensures sure { IsOk result }
    {
        let count = copy_front(&self.bytes[self.at..], into);
        self.at += count;
        Ok(count)
    }
}

/// A source over bytes in memory, whose stated calls fail.
#[derive(Drop)]
pub struct MemSource {
    rest: SureSource,
    reads: Schedule,
    faults: u64,
}

impl Model for MemSource {
    ghost use Rattle.mb_edge.specs.Memory.{Input};

    ghost Value = { Input };

    ghost view = { λ a. record { left = a.rest; reads = a.reads; faults = a.faults } };
}

impl MemSource {
    /// A source of these bytes that fails the reads of `fails`, numbered from 1; needs no memory.
    pub fn new(bytes: Bytes, fails: Fails) -> MemSource
        ensures { result ≡ record { left = bytes; reads = record { made = 0; fails = fails }; faults = 0 } }
    {
        MemSource {
            rest: SureSource::new(bytes),
            reads: Schedule::new(fails),
            faults: 0,
        }
    }
}

impl Source for MemSource {
    ghost left = { λ source. Some source.left };

    ghost faults = { λ source. source.faults };

    fn read(&mut self, into: &mut [u8]) -> Result<usize, Failed>
        ensures bound { IfOk result (λ count. count ≤ length into.new) }
        ensures bytes { Reads (Some self.old.left) (Some self.new.left) result into.new }
        ensures cause { HasCause self.old.faults self.new.faults result }
        ensures due { is_err result ≡ is_due self.old.reads }
        ensures next { self.new.reads ≡ after_call self.old.reads }
    {
        if self.reads.next_fails() {
            self.faults = self.faults.saturating_add(1);
            return Err(Failed);
        }
        self.rest.read(into)
    }
}

fn copy_front(from: &[u8], into: &mut [u8]) -> usize
    ensures count { result ≡ min (length from.now) (length into.old) }
    ensures front { take result into.new ≡ take result from.now }
{
    let count = from.len().min(into.len());
    into[..count].copy_from_slice(&from[..count]);
    count
}
