ghost use Rattle.std.specs.Prelude.{◌≡◌, ◌≤◌, ◌+◌, length};
ghost use Rattle.mb_word.specs.Numbers.{put_at, word_bytes};

use mb_word::put_word;

/// Writes bytes over those of a block, from an offset on.
pub(crate) fn write_at(into: &mut [u8; 512], at: usize, bytes: &[u8])
    requires { at + length bytes.now ≤ 512 }
    ensures bytes { into.new ≡ put_at into.old at bytes.now }
    ensures sized { length into.new ≡ 512 }
{
    into[at..at + bytes.len()].copy_from_slice(bytes);
}

/// The two bytes of a word.
pub(crate) fn word(value: u16) -> [u8; 2]
    ensures { result ≡ word_bytes value }
{
    let mut bytes = [0; 2];
    put_word(&mut bytes, 0, value);
    bytes
}
