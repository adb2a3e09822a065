ghost use Rattle.std.specs.Prelude.{◌≡◌, Some, OnOk, bytes_eq};
ghost use Rattle.mb_cache.specs.State.{ReadHasCause, after_reads, seen};
ghost use Rattle.mb_copies.specs.Reads.{IsRead};
ghost use Rattle.mb_copies.specs.Stale.{is_same};

use mb_cache::{Cache, ReadFault};
use mb_edge::Disk;
use std::alloc::{AllocError, Global};
use std::marker::Model;
use std::mem;

/// The bytes of a block with the stamp that it had. The bytes stand apart, so that a copy goes from one list to another
/// without them.
#[derive(Drop)]
pub struct KeptBlock {
    bytes: Box<[u8; 512]>,
    stamp: u64,
}

impl Model for KeptBlock {
    ghost use Rattle.mb_cache.specs.Kept as spec;

    ghost Value = { spec.KeptBlock };

    ghost view = { λ k. record { bytes = k.bytes.value; stamp = k.stamp } };
}

impl KeptBlock {
    /// Zeros, which a read or a copy writes over. The only error is want of memory.
    pub(crate) fn blank(alloc: Global) -> Result<KeptBlock, AllocError> {
        Ok(KeptBlock {
            bytes: Box::new(alloc, [0; 512])?,
            stamp: 0,
        })
    }

    /// The bytes of the block.
    pub fn bytes(&self) -> &[u8; 512]
        ensures { result.now ≡ self.now.bytes }
    {
        &self.bytes
    }

    /// The stamp that the block had.
    pub fn stamp(&self) -> u64
        ensures { result ≡ self.now.stamp }
    {
        self.stamp
    }

    /// Becomes the same copy as another one; needs no memory.
    pub(crate) fn copy_from(&mut self, kept: &KeptBlock)
        ensures { self.new ≡ kept.now }
    {
        *self.bytes = *kept.bytes;
        self.stamp = kept.stamp;
    }

    /// Each becomes the other; no byte is copied.
    pub(crate) fn swap(&mut self, kept: &mut KeptBlock)
        ensures first { self.new ≡ kept.old }
        ensures second { kept.new ≡ self.old }
    {
        mem::swap(self, kept);
    }

    /// Gives the copy new bytes, under the stamp that it has.
    pub(crate) fn rewrite(&mut self, bytes: &[u8; 512])
        ensures { self.new ≡ record self.old { bytes = bytes.now } }
    {
        *self.bytes = *bytes;
    }

    /// Becomes a block as it is seen. After an error it may hold anything.
    pub(crate) fn read<D: Disk>(
        &mut self,
        cache: &mut Cache<D>,
        block: u32,
    ) -> Result<(), ReadFault>
        ensures rest { cache.new ≡ after_reads cache.old cache.new }
        ensures told { D.told cache.new.disk ≡ D.told cache.old.disk }
        ensures cause { ReadHasCause (D.faults cache.old.disk) (D.faults cache.new.disk) result }
        ensures ok { OnOk result (IsRead (seen D.told cache.old) cache.old.stamps (block, self.new)) }
    {
        self.stamp = cache.stamp(block);
        cache.read(block, &mut self.bytes)
    }

    /// Whether the copy has a page's bytes, and that stamp.
    pub(crate) fn is_same(&self, page: &KeptBlock, stamp: u64) -> bool
        ensures { result ≡ is_same (Some self.now) stamp page.now }
    {
        self.stamp == stamp && are_same(&self.bytes, &page.bytes)
    }
}

/// Whether two blocks have the same bytes. It looks at all of them, so that no branch hinders looking at many at a time.
fn are_same(left: &[u8; 512], right: &[u8; 512]) -> bool
    ensures { result ≡ bytes_eq left.now right.now }
{
    let mut same = true;
    for at in 0..512 {
        same &= left[at] == right[at];
    }
    same
}
