ghost use Rattle.std.specs.Prelude.{◌≡◌, ◌+◌, ◌<◌, ◌≤◌};
ghost use Rattle.mb_layout.specs.Listed.{listed};
ghost use Rattle.mb_mkfs.specs.FreeLists.{free_at, has_list, last_place, list_after, number_at};

use mb_layout::Chain;

/// How many places of the super-block's list count where the blocks from `next` on are free.
pub(crate) fn free_count(top: u32, next: u32) -> u16
    requires { next ≤ top }
    ensures { result ≡ last_place top next + 1 }
{
    ((top - next) % 50) as u16 + 1
}

/// The super-block's list where the blocks from `next` on are free; places past its count have what the last full list
/// left there.
pub(crate) fn first_list(top: u32, next: u32) -> [u32; 50]
    requires some { next ≤ top }
    requires few { top ≤ 262144 }
    ensures { result ≡ listed (free_at top next) 50 }
{
    let last = (top - next) % 50;
    let mut list = [0; 50];
    for (k, number) in list.iter_mut().enumerate() {
        let place = k as u32;
        let from = if place <= last { last } else { last + 50 };
        *number = number_at(top, next, from, place);
    }
    list
}

/// Whether a block, free where it is from `next` on, holds a list: each fiftieth from the end does.
pub(crate) fn has_list(top: u32, next: u32, block: u32) -> bool
    requires { block < top }
    ensures { result ≡ has_list top next block }
{
    next <= block && (top - 1 - block) % 50 == 49
}

/// The list in such a block: the 50 blocks after it.
pub(crate) fn list_after(top: u32, block: u32) -> Chain
    requires within { block < top }
    requires few { top ≤ 262144 }
    ensures { result ≡ list_after top block }
{
    Chain {
        count: 50,
        list: full_list(top, block + 1),
    }
}

fn full_list(top: u32, next: u32) -> [u32; 50]
    requires some { next ≤ top }
    requires few { top ≤ 262144 }
    ensures { result ≡ listed (number_at top next 49) 50 }
{
    let mut list = [0; 50];
    for (k, number) in list.iter_mut().enumerate() {
        *number = number_at(top, next, 49, k as u32);
    }
    list
}

// A place of a list whose place `last` has the number `next`; 0 past the last block.
fn number_at(top: u32, next: u32, last: u32, place: u32) -> u32
    requires low { place ≤ last }
    requires few { last < 100 }
    requires small { next ≤ 262144 }
    ensures { result ≡ number_at top next last place }
{
    let number = next + last - place;
    if number < top { number } else { 0 }
}
