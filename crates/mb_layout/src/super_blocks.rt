ghost use Rattle.std.specs.Prelude.{◌≡◌, ◌<◌, ℕ, slice_index};
ghost use Rattle.mb_word.specs.Numbers.{put_at, SameFrom};
ghost use Rattle.mb_word.specs.Fields.{free_of, cached_of};
ghost use Rattle.mb_layout.specs.SuperBlock.{super_at, super_bytes};

use crate::arrays::{longs_at, put_longs, put_words, words_at};
use mb_word::{long_at, put_long, put_word, word_at};

/// The fields of the super-block, block 1 (V7 filsys(5)), under V7's names. What stands from byte
/// 410 on, the lock bytes and the time among it, is no part of it and stays as found.
#[derive(Clone, Copy, Debug, PartialEq)]
pub struct Super {
    /// The number of the first block after the i-list.
    pub s_isize: u16,
    /// The first block number that is not available to files.
    pub s_fsize: u32,
    /// How many places of `s_free` count.
    pub s_nfree: u16,
    /// Numbers of free blocks; the one in place 0 holds the next list.
    pub s_free: [u32; 50],
    /// How many places of `s_inode` count.
    pub s_ninode: u16,
    /// Numbers of inodes that may be free.
    pub s_inode: [u16; 100],
}

impl Super {
    /// Reads the super-block from the bytes of block 1.
    pub fn read(b: &[u8; 512]) -> Super
        ensures value { result ≡ super_at b.now }
        ensures free { (k : ℕ) → k < 50 → slice_index result.s_free k ≡ free_of b.now k }
        ensures inode { (k : ℕ) → k < 100 → slice_index result.s_inode k ≡ cached_of b.now k }
    {
        Super {
            s_isize: word_at(b, 0),
            s_fsize: long_at(b, 2),
            s_nfree: word_at(b, 6),
            s_free: longs_at(b, 8),
            s_ninode: word_at(b, 208),
            s_inode: words_at(b, 210),
        }
    }

    /// Writes the super-block into the bytes of block 1; bytes 410 to 511 stay.
    pub fn write(&self, b: &mut [u8; 512])
        ensures bytes { b.new ≡ put_at b.old 0 (super_bytes self.now) }
        ensures value { super_at b.new ≡ self.now }
        ensures free { (k : ℕ) → k < 50 → free_of b.new k ≡ slice_index self.now.s_free k }
        ensures inode { (k : ℕ) → k < 100 → cached_of b.new k ≡ slice_index self.now.s_inode k }
        ensures kept { SameFrom b.new b.old 410 102 }
    {
        let Super {
            s_isize,
            s_fsize,
            s_nfree,
            s_free,
            s_ninode,
            s_inode,
        } = *self;
        put_word(b, 0, s_isize);
        put_long(b, 2, s_fsize);
        put_word(b, 6, s_nfree);
        put_longs(b, 8, &s_free);
        put_word(b, 208, s_ninode);
        put_words(b, 210, &s_inode);
    }
}
