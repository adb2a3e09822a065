ghost use Rattle.std.specs.Prelude.{◌≤◌, ◌<◌, ◌+◌, ◌≡◌, false, length};
ghost use Rattle.std.specs.Str.{bytes_eq};
ghost use Rattle.mb_word.specs.Fields.{slot_name};
ghost use Rattle.mb_tree.specs.Blocks.{slot_of};
ghost use Rattle.mb_namei.specs.Slots.{eight_of, AreUnnamed, CountsSlots, Glimpses, IsFirstEmpty};

use mb_kinds::Name;
use mb_word::word_at;

/// The number of an empty slot (V7 dir(5)).
const EMPTY: u16 = 0;

/// What was found among the first slots of a directory's block.
#[derive(Clone, Copy, Debug, PartialEq, Drop)]
pub(crate) enum Glimpse {
    /// The first used slot with the name.
    Named { place: u32, ino: u16 },
    /// None has the name; the first empty slot, or the number of slots where none is empty.
    Unnamed { empty: u32 },
}

/// Eight bytes from an offset on as one number, so that they are compared at once.
#[inline]
fn eight_at(bytes: &[u8], at: usize) -> u64
    requires { at + 8 ≤ length bytes.now }
    ensures { result ≡ eight_of bytes.now at }
{
    let Some(eight) = bytes[at..].first_chunk::<8>() else {
        unreachable!()
    };
    u64::from_le_bytes(*eight)
}

/// Whether the slot at a place has the name, in use or not (V7 dir(5)). It compares the first eight and
/// the last eight bytes, which of the name are at hand.
#[inline]
fn has_name(bytes: &[u8; 512], place: u32, name: &Name, front: u64, back: u64) -> bool
    requires place { place < 32 }
    requires front { front ≡ eight_of name.now 0 }
    requires back { back ≡ eight_of name.now 6 }
    ensures { result ≡ bytes_eq (slot_name bytes.now place) name.now }
{
    let _name = *name;
    let at = 16 * place as usize;
    eight_at(bytes, at + 2) == front && eight_at(bytes, at + 8) == back
}

/// The first place of a directory's block in whose slot, in use or not, the first eight bytes of a name stand;
/// 32 where they stand in none. No slot before it has the name. To look for these bytes alone takes a fifth of
/// the time.
pub(crate) fn front_place(bytes: &[u8; 512], name: &Name) -> u32
    ensures { AreUnnamed (slot_of bytes.now) name.now result }
{
    let _name = *name;
    let front = eight_at(name, 0);
    for place in 0..32u32 {
        if eight_at(bytes, 16 * place as usize + 2) == front {
            return place;
        }
    }
    32
}

/// The first empty one of the first `count` slots of a directory's block, or `count` where none is.
fn first_gap(bytes: &[u8; 512], count: u32) -> u32
    requires { count ≤ 32 }
    ensures { IsFirstEmpty (slot_of bytes.now) count count result }
{
    for place in 0..32u32 {
        if word_at(bytes, 16 * place as usize) == EMPTY {
            return place.min(count);
        }
    }
    count
}

/// Looks for a name among the first `count` slots of a directory's block.
pub(crate) fn scan_slots(bytes: &[u8; 512], count: u32, name: &Name) -> Glimpse
    requires { count ≤ 32 }
    ensures { Glimpses bytes.now count name.now result }
{
    let front = eight_at(name, 0);
    let back = eight_at(name, 6);
    for place in front_place(bytes, name)..count {
        let ino = word_at(bytes, 16 * place as usize);
        if ino != EMPTY && has_name(bytes, place, name, front, back) {
            return Glimpse::Named { place, ino };
        }
    }
    Glimpse::Unnamed {
        empty: first_gap(bytes, count),
    }
}

/// How many of the first `count` slots of a directory's block are in use.
pub(crate) fn count_slots(bytes: &[u8; 512], count: u32) -> u32
    requires { count ≤ 32 }
    ensures { CountsSlots bytes.now count result }
{
    let mut used = 0;
    for place in 0..count {
        if word_at(bytes, 16 * place as usize) != EMPTY {
            used += 1;
        }
    }
    used
}
