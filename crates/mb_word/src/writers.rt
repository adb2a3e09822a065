ghost use Rattle.std.specs.Prelude.{◌≡◌, ◌≤◌, ◌<◌, ◌+◌, length};
ghost use Rattle.mb_word.specs.Numbers.{put_at, word_bytes, long_bytes, addr_bytes};

use byteorder::{ByteOrder, LittleEndian};

/// Writes a word at an offset; no other byte changes.
pub fn put_word(b: &mut [u8], at: usize, value: u16)
    requires { at + 2 ≤ length b.old }
    ensures { b.new ≡ put_at b.old at (word_bytes value) }
{
    LittleEndian::write_u16(&mut b[at..], value);
}

/// Writes a long at an offset, the high word first; no other byte changes.
pub fn put_long(b: &mut [u8], at: usize, value: u32)
    requires { at + 4 ≤ length b.old }
    ensures { b.new ≡ put_at b.old at (long_bytes value) }
{
    put_word(b, at, (value / 65536) as u16);
    put_word(b, at + 2, (value % 65536) as u16);
}

/// Writes a three-byte address, one below 16,777,216, at an offset; no other byte changes.
pub fn put_addr(b: &mut [u8], at: usize, value: u32)
    requires room { at + 3 ≤ length b.old }
    requires small { value < 16777216 }
    ensures { b.new ≡ put_at b.old at (addr_bytes value) }
{
    b[at] = (value / 65536) as u8;
    put_word(b, at + 1, (value % 65536) as u16);
}
