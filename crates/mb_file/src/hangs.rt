ghost use Rattle.std.specs.Prelude.{◌≡◌, ◌≤◌, ◌<◌, ◌+◌, length};
ghost use Rattle.mb_word.specs.Fields.{nfree_of};
ghost use Rattle.mb_file.specs.Freeing.{HangsOne, HangsEach, MovesList, list_block};

use mb_word::{put_long, put_word, word_at};

/// Puts a block's address behind those of the super-block's list, which has room (V7 alloc(9),
/// filsys(5)). An empty list gets address 0 first, which ends the chain.
pub(crate) fn hang(first: &mut [u8; 512], block: u32)
    requires { nfree_of first.old < 50 }
    ensures hangs { HangsOne first.old first.new block }
    ensures some { 0 < nfree_of first.new }
    ensures count { nfree_of first.new ≤ 50 }
{
    let held = word_at(first, 6);
    if held == 0 {
        put_long(first, 8, 0);
    }
    let count = held.max(1);
    put_long(first, 8 + 4 * usize::from(count), block);
    put_word(first, 6, count + 1);
}

/// Leaves a block's address alone in the super-block's list, a full one of 50, which the block holds then (V7
/// alloc(9), filsys(5)).
pub(crate) fn begin_list(first: &mut [u8; 512], block: u32)
    requires { nfree_of first.old ≡ 50 }
    ensures moves { MovesList first.old first.new (list_block first.old) block }
    ensures count { nfree_of first.new ≡ 1 }
{
    put_word(first, 6, 1);
    put_long(first, 8, block);
}

/// Puts blocks' addresses behind those of the super-block's list, which has some and has room for them, one after
/// another as `hang` does.
pub(crate) fn hang_each(first: &mut [u8; 512], blocks: &[u32])
    requires some { 0 < nfree_of first.old }
    requires room { nfree_of first.old + length blocks.now ≤ 50 }
    ensures hangs { HangsEach first.old first.new blocks.now }
    ensures count { nfree_of first.new ≤ 50 }
{
    if blocks.is_empty() {
        return;
    }
    let held = word_at(first, 6);
    for at in 0..blocks.len() {
        put_long(first, 8 + 4 * (usize::from(held) + at), blocks[at]);
    }
    put_word(first, 6, held + blocks.len() as u16);
}
