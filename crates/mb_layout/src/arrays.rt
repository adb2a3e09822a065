ghost use Rattle.std.specs.Prelude.{◌≡◌, ◌≤◌, ◌<◌, ◌+◌, ◌*◌, ℕ, slice_index};
ghost use Rattle.mb_word.specs.Numbers.{put_at, word_at, long_at};
ghost use Rattle.mb_layout.specs.Listed.{listed, words_bytes, longs_bytes};

use mb_word::{long_at, put_long, put_word, word_at};

/// The 50 longs from an offset on.
pub(crate) fn longs_at(b: &[u8; 512], at: usize) -> [u32; 50]
    requires { at + 200 ≤ 512 }
    ensures { result ≡ listed (λ k. long_at b.now (at + 4 * k)) 50 }
{
    let mut list = [0; 50];
    for (k, x) in list.iter_mut().enumerate() {
        *x = long_at(b, at + 4 * k);
    }
    list
}

/// The 100 words from an offset on.
pub(crate) fn words_at(b: &[u8; 512], at: usize) -> [u16; 100]
    requires { at + 200 ≤ 512 }
    ensures { result ≡ listed (λ k. word_at b.now (at + 2 * k)) 100 }
{
    let mut list = [0; 100];
    for (k, x) in list.iter_mut().enumerate() {
        *x = word_at(b, at + 2 * k);
    }
    list
}

/// Writes 50 longs from an offset on.
pub(crate) fn put_longs(b: &mut [u8; 512], at: usize, list: &[u32; 50])
    requires { at + 200 ≤ 512 }
    ensures bytes { b.new ≡ put_at b.old at (longs_bytes list.now) }
    ensures items { (k : ℕ) → slice_index list.now k < 4294967296 }
{
    for (k, x) in list.iter().enumerate() {
        put_long(b, at + 4 * k, *x);
    }
}

/// Writes 100 words from an offset on.
pub(crate) fn put_words(b: &mut [u8; 512], at: usize, list: &[u16; 100])
    requires { at + 200 ≤ 512 }
    ensures bytes { b.new ≡ put_at b.old at (words_bytes list.now) }
    ensures items { (k : ℕ) → slice_index list.now k < 65536 }
{
    for (k, x) in list.iter().enumerate() {
        put_word(b, at + 2 * k, *x);
    }
}
