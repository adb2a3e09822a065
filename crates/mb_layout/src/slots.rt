ghost use Rattle.std.specs.Prelude.{◌≡◌, ◌≢◌, ◌<◌, ◌*◌, ℕ};
ghost use Rattle.mb_word.specs.Numbers.{put_at};
ghost use Rattle.mb_layout.specs.SlotEntry.{slot_at, slot_bytes};

use mb_kinds::Name;
use mb_word::{put_word, word_at};

/// A slot of a directory (V7 dir(5)).
#[derive(Clone, Copy, Debug, PartialEq)]
pub struct Slot {
    /// The number of the inode to which it leads; 0 where the slot is empty.
    pub ino: u16,
    /// The name, padded with 0.
    pub name: Name,
}

impl Slot {
    /// Reads the slot at a place, one of 32, of a directory's block.
    pub fn read(b: &[u8; 512], place: u8) -> Slot
        requires { place < 32 }
        ensures { result ≡ slot_at b.now place }
    {
        let at = 16 * place as usize;
        let mut name = [0; 14];
        name.copy_from_slice(&b[at + 2..at + 16]);
        Slot {
            ino: word_at(b, at),
            name,
        }
    }

    /// Writes the slot at a place, one of 32, of a directory's block; the bytes of the other slots
    /// stay.
    pub fn write(&self, b: &mut [u8; 512], place: u8)
        requires { place < 32 }
        ensures bytes { b.new ≡ put_at b.old (16 * place) (slot_bytes self.now) }
        ensures value { slot_at b.new place ≡ self.now }
        ensures others { (other : ℕ) → other < 32 → other ≢ place → slot_at b.new other ≡ slot_at b.old other }
    {
        let Slot { ino, name } = *self;
        let at = 16 * place as usize;
        put_word(b, at, ino);
        b[at + 2..at + 16].copy_from_slice(&name);
    }
}
