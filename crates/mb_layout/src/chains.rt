ghost use Rattle.std.specs.Prelude.{◌≡◌, ◌<◌, ℕ, slice_index};
ghost use Rattle.mb_word.specs.Numbers.{put_at, SameFrom};
ghost use Rattle.mb_word.specs.Fields.{chain_entry};
ghost use Rattle.mb_layout.specs.ChainBlock.{chain_at, chain_bytes};

use crate::arrays::{longs_at, put_longs};
use mb_word::{put_word, word_at};

/// The list in a block of the free chain (V7 filsys(5)). What stands from byte 202 on is no part of
/// it and stays as found.
#[derive(Clone, Copy, Debug, PartialEq)]
pub struct Chain {
    /// How many places of the list count.
    pub count: u16,
    /// Numbers of free blocks; the one in place 0 holds the next list.
    pub list: [u32; 50],
}

impl Chain {
    /// Reads the list from the bytes of a chain block.
    pub fn read(b: &[u8; 512]) -> Chain
        ensures value { result ≡ chain_at b.now }
        ensures list { (k : ℕ) → k < 50 → slice_index result.list k ≡ chain_entry b.now k }
    {
        Chain {
            count: word_at(b, 0),
            list: longs_at(b, 2),
        }
    }

    /// Writes the list into the bytes of a chain block; bytes 202 to 511 stay.
    pub fn write(&self, b: &mut [u8; 512])
        ensures bytes { b.new ≡ put_at b.old 0 (chain_bytes self.now) }
        ensures value { chain_at b.new ≡ self.now }
        ensures list { (k : ℕ) → k < 50 → chain_entry b.new k ≡ slice_index self.now.list k }
        ensures kept { SameFrom b.new b.old 202 310 }
    {
        let Chain { count, list } = *self;
        put_word(b, 0, count);
        put_longs(b, 2, &list);
    }
}
