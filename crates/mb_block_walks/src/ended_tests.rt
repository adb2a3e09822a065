use crate::volumes::{cached, fresh, holds, numbered, with_a_deep_part};
use mb_alloc::{Hung, Picked, Taken, free_block, free_inode, pick_inode, take_block, take_zeroed};
use mb_bmap::{Reached, hang, reach};
use mb_gathering::{GatheredBlocks, gather, nothing, without};
use mb_iface::{Changes, Need};
use std::alloc::Global;
use std::test::Fail;

/// A call on blocks. Parts are those of inode 3.
#[derive(Clone, Copy, Drop)]
enum Call {
    Take,
    TakeZeroed,
    PutBack(u32),
    ReachDeepPart,
    HangDeepPart,
    HangIndexBlock,
    Pick,
    FreeInode(u16),
}

/// What a call told; `Done` with the block or the number, 0 where it tells none.
#[derive(Clone, Copy, Debug, PartialEq, Drop)]
enum Told {
    Done(u32),
    NoneLeft,
    Need(Need),
    NoMemory,
}

fn of_taken(taken: Taken) -> Told {
    match taken {
        Taken::Block(block) => Told::Done(block),
        Taken::NoneLeft => Told::NoneLeft,
        Taken::Need(need) => Told::Need(need),
        Taken::NoMemory => Told::NoMemory,
    }
}

fn of_reached(reached: Reached) -> Told {
    match reached {
        Reached::At(block) => Told::Done(block),
        Reached::NoneLeft => Told::NoneLeft,
        Reached::Need(need) => Told::Need(need),
        Reached::NoMemory => Told::NoMemory,
    }
}

fn of_hung(hung: Hung) -> Told {
    match hung {
        Hung::Done => Told::Done(0),
        Hung::Need(need) => Told::Need(need),
        Hung::NoMemory => Told::NoMemory,
    }
}

fn of_picked(picked: Picked) -> Told {
    match picked {
        Picked::Ino(ino) => Told::Done(u32::from(ino)),
        Picked::NoneLeft => Told::NoneLeft,
        Picked::Need(need) => Told::Need(need),
        Picked::NoMemory => Told::NoMemory,
    }
}

/// Makes a call once.
fn call_on(view: &GatheredBlocks, changes: &mut Changes, call: Call) -> Told {
    match call {
        Call::Take => of_taken(take_block(view, changes)),
        Call::TakeZeroed => of_taken(take_zeroed(view, changes, 3)),
        Call::PutBack(block) => of_hung(free_block(view, changes, block.min(3999))),
        Call::ReachDeepPart => of_reached(reach(view, changes, 3, 16_522, 4)),
        Call::HangDeepPart => of_hung(hang(view, changes, 3, 16_522, 3, 3990)),
        Call::HangIndexBlock => of_hung(hang(view, changes, 3, 16_650, 2, 3990)),
        Call::Pick => of_picked(pick_inode(view, changes)),
        Call::FreeInode(ino) => of_hung(free_inode(view, changes, ino)),
    }
}

/// The blocks of a disk that a call may look at: the first 8 and the last 100.
fn ends_of(heap: Global, disk: &GatheredBlocks) -> Result<GatheredBlocks, Fail> {
    let mut ends = nothing(heap);
    for place in 0..disk.blocks.len() {
        let (block, bytes) = disk.blocks.at(place);
        if block < 8 || block >= 3900 {
            ends.blocks.put(block, bytes)?;
        }
    }
    Ok(ends)
}

fn is_same(one: &Changes, other: &Changes) -> bool {
    for place in 0..one.len() {
        let (block, bytes) = one.at(place);
        match other.get(block) {
            Some(found) => {
                if *found != *bytes {
                    return false;
                }
            }
            None => return false,
        }
    }
    one.len() == other.len()
}

/// What a call tells on a view that lacks one block, begun once more with the block where it asks for it, and whether
/// it asked.
fn end_without(
    heap: Global,
    disk: &GatheredBlocks,
    view: &mut GatheredBlocks,
    changes: &mut Changes,
    call: Call,
    lacking: u32,
) -> Result<(Told, bool), Fail> {
    let ended = call_on(view, changes, call);
    let Told::Need(need) = ended else {
        return Ok((ended, false));
    };
    if need.first != lacking {
        return Err("another block is asked for".into());
    }
    gather(disk, view, need)?;
    *changes = Changes::new(heap);
    Ok((call_on(view, changes, call), true))
}

/// A call on a view that lacks one block ends as it does on all of them: at once, or where it asks for
/// that block with the block. Answers whether it asked.
fn ends_without(
    heap: Global,
    disk: &GatheredBlocks,
    call: Call,
    lacking: u32,
    whole: &Told,
    made: &Changes,
) -> Result<bool, Fail> {
    let mut view = without(heap, disk, lacking)?;
    let mut changes = Changes::new(heap);
    let (ended, asks) = end_without(heap, disk, &mut view, &mut changes, call, lacking)?;
    holds(
        ended == *whole && is_same(&changes, made),
        "a call ends otherwise where it had to ask",
    )?;
    Ok(asks)
}

/// Each block of a view in turn is missing.
fn ends_without_each(
    heap: Global,
    ends: &GatheredBlocks,
    call: Call,
    read: &[u32],
    end: &Told,
    made: &Changes,
) -> Result<(), Fail> {
    for place in 0..ends.blocks.len() {
        let (lacking, _) = ends.blocks.at(place);
        let asks = ends_without(heap, ends, call, lacking, end, made)?;
        let is_read = read.contains(&lacking);
        if asks != is_read {
            return Err("other blocks are asked for than are read".into());
        }
    }
    Ok(())
}

/// Each block in turn is missing; those that the call reads, and no others, are asked for, and the call
/// ends then as on a view with all blocks.
fn asks_for(
    heap: Global,
    ends: &GatheredBlocks,
    call: Call,
    read: &[u32],
    end: &Told,
) -> Result<(), Fail> {
    let mut made = Changes::new(heap);
    holds(
        call_on(ends, &mut made, call) == *end,
        "a call ends otherwise",
    )?;
    ends_without_each(heap, ends, call, read, end, &made)
}

/// A call, the blocks that it reads, and what it tells.
type Row<'a> = (Call, &'a [u32], Told);

/// The calls of a table, each on the blocks of a disk.
fn ask_each(heap: Global, disk: &GatheredBlocks, table: &[Row<'_>]) -> Result<(), Fail> {
    let ends = ends_of(heap, disk)?;
    for (call, read, end) in table {
        asks_for(heap, &ends, *call, read, end)?;
    }
    Ok(())
}

/// Those on a volume with so many free blocks.
fn ask_with_free(heap: Global, free: u32, table: &[Row<'_>]) -> Result<(), Fail> {
    let disk = fresh(heap, free)?;
    ask_each(heap, &disk, table)
}

/// Those on one with a deep part.
fn ask_with_part(heap: Global, table: &[Row<'_>]) -> Result<(), Fail> {
    let disk = with_a_deep_part(heap)?;
    ask_each(heap, &disk, table)
}

/// Those on one with an empty cache of numbers.
fn ask_with_numbers(heap: Global, table: &[Row<'_>]) -> Result<(), Fail> {
    let disk = numbered(heap)?;
    ask_each(heap, &disk, table)
}

/// Those on one with a full cache, which ends so.
fn ask_with_cache(heap: Global, number: u8, last: &[u8; 8], table: &[Row<'_>]) -> Result<(), Fail> {
    let disk = cached(heap, number, last)?;
    ask_each(heap, &disk, table)
}

/// A take of a list's only block reads the next list; any other reads block 1 alone.
#[test]
fn take_ends_with_each_block_that_it_asks_for(rt: HostRuntime) -> Result<(), Fail> {
    let one = [
        (Call::Take, [1, 3950].as_slice(), Told::Done(3950)),
        (Call::TakeZeroed, [1, 3950].as_slice(), Told::Done(3950)),
    ];
    ask_with_free(rt.alloc(), 50, &one)?;
    let full = [
        (Call::Take, [1].as_slice(), Told::Done(3951)),
        (Call::TakeZeroed, [1, 3951].as_slice(), Told::Done(3951)),
    ];
    ask_with_free(rt.alloc(), 49, &full)?;
    let none = [(Call::TakeZeroed, [1].as_slice(), Told::NoneLeft)];
    ask_with_free(rt.alloc(), 0, &none)
}

/// A block is put back on a list of 49 and on a list of 50, which moves into it.
#[test]
fn block_put_back_ends_with_each_block_that_it_asks_for(rt: HostRuntime) -> Result<(), Fail> {
    let almost = [(Call::PutBack(3951), [1].as_slice(), Told::Done(0))];
    ask_with_free(rt.alloc(), 48, &almost)?;
    let full = [(Call::PutBack(3950), [1].as_slice(), Told::Done(0))];
    ask_with_free(rt.alloc(), 49, &full)
}

/// A part is reached whose four blocks are taken on the way, the last of them with the next list, and
/// one that is there.
#[test]
fn reach_ends_with_each_block_that_it_asks_for(rt: HostRuntime) -> Result<(), Fail> {
    let call = Call::ReachDeepPart;
    let taken = [1, 2, 3947, 3948, 3949, 3950];
    ask_with_free(
        rt.alloc(),
        53,
        &[(call, taken.as_slice(), Told::Done(3950))],
    )?;
    let some = [1, 2, 3997, 3998, 3999];
    ask_with_free(rt.alloc(), 3, &[(call, some.as_slice(), Told::NoneLeft)])?;
    let way = [2, 3905, 3906, 3907];
    ask_with_part(rt.alloc(), &[(call, way.as_slice(), Told::Done(3908))])
}

#[test]
fn hang_ends_with_each_block_that_it_asks_for(rt: HostRuntime) -> Result<(), Fail> {
    let table = [
        (
            Call::HangDeepPart,
            [2, 3905, 3906, 3907].as_slice(),
            Told::Done(0),
        ),
        (
            Call::HangIndexBlock,
            [2, 3905, 3906].as_slice(),
            Told::Done(0),
        ),
    ];
    ask_with_part(rt.alloc(), &table)
}

/// A number is picked from an empty cache, from a full one by its last free number, and from a full one
/// without a free number, by a scan.
#[test]
fn pick_ends_with_each_block_that_it_asks_for(rt: HostRuntime) -> Result<(), Fail> {
    let third = [(Call::Pick, [1, 2, 3].as_slice(), Told::Done(3))];
    ask_with_numbers(rt.alloc(), &third)?;
    let last = [(Call::Pick, [1, 2, 3].as_slice(), Told::Done(16))];
    ask_with_cache(rt.alloc(), 4, &[16, 0, 4, 0, 17, 0, 2, 0], &last)?;
    ask_with_cache(rt.alloc(), 4, &[0, 0, 1, 0, 2, 0, 17, 0], &third)
}

#[test]
fn inode_freed_ends_with_each_block_that_it_asks_for(rt: HostRuntime) -> Result<(), Fail> {
    let empty = [
        (Call::FreeInode(4), [1, 2].as_slice(), Told::Done(0)),
        (Call::FreeInode(9), [1, 3].as_slice(), Told::Done(0)),
    ];
    ask_with_numbers(rt.alloc(), &empty)?;
    let full = [(Call::FreeInode(4), [1, 2].as_slice(), Told::Done(0))];
    ask_with_cache(rt.alloc(), 9, &[7, 0, 7, 0, 7, 0, 7, 0], &full)
}
