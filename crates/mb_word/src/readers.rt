ghost use Rattle.std.specs.Prelude.{◌≡◌, ◌≤◌, ◌+◌, length};
ghost use Rattle.mb_word.specs.Numbers as numbers;

use byteorder::{ByteOrder, LittleEndian};

/// The word at an offset: 16 bits, the low byte first (V7 filsys(5) on a PDP-11).
pub fn word_at(b: &[u8], at: usize) -> u16
    requires { at + 2 ≤ length b.now }
    ensures { result ≡ numbers.word_at b.now at }
{
    LittleEndian::read_u16(&b[at..])
}

/// The long at an offset: two words, the high word first, as a PDP-11's C compiler stores it.
#[tactic(auto, unfolding(crate::specs::Numbers::long_at))]
pub fn long_at(b: &[u8], at: usize) -> u32
    requires { at + 4 ≤ length b.now }
    ensures { result ≡ numbers.long_at b.now at }
{
    u32::from(word_at(b, at)) * 65536 + u32::from(word_at(b, at + 2))
}

/// The three-byte address at an offset, as an inode holds it: its high byte, then a word with the
/// low 16 bits.
#[tactic(auto, unfolding(crate::specs::Numbers::addr_at))]
pub fn addr_at(b: &[u8], at: usize) -> u32
    requires { at + 3 ≤ length b.now }
    ensures { result ≡ numbers.addr_at b.now at }
{
    u32::from(b[at]) * 65536 + u32::from(word_at(b, at + 1))
}
