ghost use Rattle.std.specs.Prelude.{◌≡◌, ◌≢◌, ◌<◌, ◌*◌, ℕ};
ghost use Rattle.mb_word.specs.Numbers.{put_at, long_bytes};
ghost use Rattle.mb_word.specs.Fields.{index_entry};

use mb_word::{long_at, put_long};

/// The address at a place, one of 128, of an index block (V7 filsys(5)); 0 is a hole.
pub fn index_at(block: &[u8; 512], place: u8) -> u32
    requires { place < 128 }
    ensures { result ≡ index_entry block.now place }
{
    long_at(block, 4 * place as usize)
}

/// Sets the address at a place, one of 128, of an index block; the other addresses stay.
pub fn put_index(block: &mut [u8; 512], place: u8, address: u32)
    requires { place < 128 }
    ensures bytes { block.new ≡ put_at block.old (4 * place) (long_bytes address) }
    ensures value { index_entry block.new place ≡ address }
    ensures others { (other : ℕ) → other < 128 → other ≢ place → index_entry block.new other ≡ index_entry block.old other }
{
    put_long(block, 4 * place as usize, address);
}
