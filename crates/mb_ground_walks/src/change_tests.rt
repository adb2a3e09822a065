ghost use Rattle.std.specs.Prelude.{Some, None, cond, nat_eq};

use mb_iface::{
    Acted, Asked, Changes, Edited, FileSys, Need, Opens, Others, Over, Query, View, edit,
    edit_both, hold_both, put_and_edit, seen,
};
use mb_tree::FsOp;
use std::alloc::Global;
use std::process::Abort;
use std::test::Fail;

/// A view of one block, all of whose bytes are 1.
#[derive(Drop)]
struct OneBlock {
    block: u32,
    bytes: [u8; 512],
}

impl View for OneBlock {
    ghost shown = { λ v block. cond (nat_eq v.block block) (Some v.bytes) None };

    fn get(&self, block: u32) -> Option<&[u8; 512]> {
        if self.block == block {
            Some(&self.bytes)
        } else {
            None
        }
    }
}

fn ones() -> OneBlock {
    OneBlock {
        block: 5,
        bytes: [1; 512],
    }
}

/// A run of blocks alone.
fn need_of(first: u32, count: u32) -> Need {
    Need {
        first,
        count,
        others: Others::none(),
    }
}

/// The run of blocks from one on, where the view lacks that one.
fn run_from<V: View>(view: &V, first: u32, wanted: u32) -> Option<Need> {
    if first < 1 || first >= 262_144 || wanted < 1 {
        return None;
    }
    match view.get(first) {
        Some(_) => None,
        None => Some(Need::run(view, first, wanted)),
    }
}

/// A file system that has no memory.
#[derive(Clone, Copy)]
struct Starved;

impl FileSys for Starved {
    fn ask<V: View>(&self, _alloc: Global, _view: &V, _query: &Query) -> Asked {
        Asked::NoMemory
    }

    fn act<V: View>(
        &self,
        _alloc: Global,
        _view: &V,
        _opens: &Opens,
        _op: &FsOp,
        _pick: Option<u16>,
    ) -> Acted {
        Acted::NoMemory
    }
}

fn ask_about<F: FileSys, V: View>(fs: F, alloc: Global, view: &V, ino: u16) -> Asked {
    fs.ask(alloc, view, &Query::Info { ino })
}

fn act_on<F: FileSys, V: View>(fs: F, alloc: Global, view: &V, ino: u16) -> Acted {
    fs.act(alloc, view, &Opens::new(alloc), &FsOp::Hold { ino }, None)
}

/// Whether a block is there and has these bytes from a place on.
fn has_bytes(block: Option<&[u8; 512]>, at: usize, wanted: &[u8]) -> bool {
    match block {
        Some(bytes) => match bytes.get(at..) {
            Some(rest) => rest.starts_with(wanted),
            None => false,
        },
        None => false,
    }
}

fn is_seen_through(view: &OneBlock, changes: &Changes) -> bool {
    let over = Over::new(view, changes);
    has_bytes(over.get(5), 511, &[2])
}

fn covers(rt: &impl Abort, view: &OneBlock, changes: &mut Changes) -> Result<(), Fail> {
    assert!(rt; has_bytes(seen(view, changes, 5), 0, &[1]));
    changes.put(5, &[2; 512])?;
    assert!(rt; has_bytes(seen(view, changes, 5), 0, &[2]));
    assert!(rt; seen(view, changes, 6).is_none());
    assert!(rt; is_seen_through(view, changes));
    Ok(())
}

#[test]
fn changed_block_covers_the_view(rt: HostRuntime) -> Result<(), Fail> {
    let view = ones();
    let mut changes = Changes::new(rt.alloc());
    covers(&rt, &view, &mut changes)
}

fn stand_in_order(rt: &impl Abort, changes: &Changes) -> Result<(), Fail> {
    assert_eq!(rt; changes.len(), 3);
    let (first, bytes) = changes.at(0);
    assert_eq!(rt; first, 7);
    assert_eq!(rt; bytes[0], 4);
    let (last, _) = changes.at(2);
    assert_eq!(rt; last, 9);
    Ok(())
}

fn put_later(later: &mut Changes) -> Result<(), Fail> {
    later.put(9, &[3; 512])?;
    later.put(7, &[4; 512])?;
    Ok(())
}

fn absorb_later(alloc: Global, changes: &mut Changes) -> Result<(), Fail> {
    changes.put_both(7, &[1; 512], 5, &[2; 512])?;
    let mut later = Changes::new(alloc);
    put_later(&mut later)?;
    changes.absorb(later)?;
    Ok(())
}

#[test]
fn changes_stand_in_the_order_of_first_writes(rt: HostRuntime) -> Result<(), Fail> {
    let mut changes = Changes::new(rt.alloc());
    absorb_later(rt.alloc(), &mut changes)?;
    stand_in_order(&rt, &changes)
}

fn edits_nothing(rt: &impl Abort, view: &OneBlock, changes: &mut Changes) {
    assert!(rt; edit(view, changes, 6, 0, &[7]) == Edited::Lacking);
    assert!(rt; !changes.patch(5, 0, &[7]));
    assert!(rt; changes.len() == 0);
}

// In a copy of the view's block, and then twice in place.
fn edits_one(rt: &impl Abort, view: &OneBlock, changes: &mut Changes) {
    assert!(rt; edit(view, changes, 5, 510, &[7, 8]) == Edited::Done);
    assert!(rt; edit(view, changes, 5, 0, &[9]) == Edited::Done);
    assert!(rt; changes.patch(5, 2, &[6]));
}

fn has_edits(changes: &Changes) -> bool {
    changes.len() == 1
        && has_bytes(changes.get(5), 0, &[9, 1, 6, 1])
        && has_bytes(changes.get(5), 508, &[1, 1, 7, 8])
}

fn keeps_bytes(rt: &impl Abort, view: &OneBlock, changes: &mut Changes) {
    edits_nothing(rt, view, changes);
    edits_one(rt, view, changes);
    assert!(rt; has_edits(changes));
}

#[test]
fn edit_keeps_the_other_bytes_of_the_block(rt: HostRuntime) -> Result<(), Fail> {
    let view = ones();
    let mut changes = Changes::with_room(rt.alloc(), 2)?;
    keeps_bytes(&rt, &view, &mut changes);
    Ok(())
}

fn lies_over(rt: &impl Abort, view: &OneBlock, changes: &mut Changes) {
    let edited = edit_both(view, changes, 5, 0, &[2, 2], 1, &[3, 3]);
    assert_eq!(rt; edited, Edited::Done);
    assert!(rt; has_bytes(changes.get(5), 0, &[2, 3, 3, 1]));
}

#[test]
fn later_one_of_two_edits_lies_over_the_earlier_one(rt: HostRuntime) -> Result<(), Fail> {
    let view = ones();
    let mut changes = Changes::new(rt.alloc());
    lies_over(&rt, &view, &mut changes);
    Ok(())
}

fn none_is_held(view: &OneBlock, changes: &mut Changes) -> bool {
    hold_both(view, changes, 5, 6) == Edited::Lacking && changes.len() == 1
}

fn both_are_held(view: &OneBlock, changes: &mut Changes) -> bool {
    hold_both(view, changes, 5, 7) == Edited::Done
        && hold_both(view, changes, 7, 5) == Edited::Done
        && changes.len() == 2
}

fn are_held_or_none(rt: &impl Abort, view: &OneBlock, changes: &mut Changes) {
    assert!(rt; none_is_held(view, changes));
    assert!(rt; both_are_held(view, changes));
    assert!(rt; has_bytes(changes.get(5), 0, &[1]));
    assert!(rt; has_bytes(changes.get(7), 0, &[2]));
}

#[test]
fn two_blocks_are_held_or_none(rt: HostRuntime) -> Result<(), Fail> {
    let view = ones();
    let mut changes = Changes::new(rt.alloc());
    changes.put(7, &[2; 512])?;
    are_held_or_none(&rt, &view, &mut changes);
    Ok(())
}

fn nothing_is_put(view: &OneBlock, changes: &mut Changes) -> bool {
    let lacking = put_and_edit(view, changes, 9, &[3; 512], 6, 0, &[4]);
    lacking == Edited::Lacking && changes.len() == 0
}

// In a copy of the view's block, then in place, and then in the block put itself.
fn are_put(rt: &impl Abort, view: &OneBlock, changes: &mut Changes) {
    let copied = put_and_edit(view, changes, 9, &[3; 512], 5, 0, &[4]);
    assert!(rt; copied == Edited::Done);
    let in_place = put_and_edit(view, changes, 8, &[5; 512], 5, 1, &[6]);
    assert!(rt; in_place == Edited::Done);
    let itself = put_and_edit(view, changes, 8, &[7; 512], 8, 1, &[8]);
    assert!(rt; itself == Edited::Done);
}

fn has_put(changes: &Changes) -> bool {
    changes.len() == 3
        && has_bytes(changes.get(5), 0, &[4, 6, 1])
        && has_bytes(changes.get(8), 0, &[7, 8, 7])
        && has_bytes(changes.get(9), 0, &[3])
}

fn is_put_before(rt: &impl Abort, view: &OneBlock, changes: &mut Changes) {
    assert!(rt; nothing_is_put(view, changes));
    are_put(rt, view, changes);
    assert!(rt; has_put(changes));
}

#[test]
fn block_is_put_before_bytes_are_changed(rt: HostRuntime) -> Result<(), Fail> {
    let view = ones();
    let mut changes = Changes::new(rt.alloc());
    is_put_before(&rt, &view, &mut changes);
    Ok(())
}

/// Whether the run from a block on has so many blocks.
fn is_run(view: &OneBlock, first: u32, wanted: u32, count: u32) -> bool {
    run_from(view, first, wanted) == Some(need_of(first, count))
}

fn run_ends(rt: &impl Abort, view: &OneBlock) {
    assert!(rt; run_from(view, 5, 9).is_none());
    assert!(rt; is_run(view, 3, 9, 2));
    assert!(rt; is_run(view, 6, 9, 9));
    assert!(rt; is_run(view, 6, 40, 32));
    assert!(rt; is_run(view, 262_142, 9, 2));
}

#[test]
fn run_of_needs_ends_before_a_block_that_is_there(rt: HostRuntime) {
    let view = ones();
    run_ends(&rt, &view);
    assert!(rt; Need::one(4) == need_of(4, 1));
    assert!(rt; Need::tables() == need_of(0, 1));
}

fn are_the_same(rt: &impl Abort, opens: &mut Opens, other: &mut Opens) -> Result<(), Fail> {
    assert!(rt; !opens.same(other));
    other.set(4, 2)?;
    assert!(rt; !opens.same(other));
    other.set(3, 2)?;
    other.set(4, 0)?;
    assert!(rt; opens.same(other));
    Ok(())
}

#[test]
fn tables_are_the_same_where_they_count_alike(rt: HostRuntime) -> Result<(), Fail> {
    let mut opens = Opens::new(rt.alloc());
    opens.set(3, 2)?;
    let mut other = Opens::new(rt.alloc());
    are_the_same(&rt, &mut opens, &mut other)
}

fn has_left(rt: &impl Abort, before: &Opens, opens: &mut Opens) -> Result<(), Fail> {
    opens.set(3, 0)?;
    assert_eq!(rt; before.count(3), 2);
    assert_eq!(rt; opens.count(3), 0);
    Ok(())
}

fn leaves(rt: &impl Abort, opens: &mut Opens) -> Result<(), Fail> {
    opens.set(3, 2)?;
    let before = opens.copy()?;
    has_left(rt, &before, opens)
}

#[test]
fn count_of_zero_leaves_the_map(rt: HostRuntime) -> Result<(), Fail> {
    let mut opens = Opens::new(rt.alloc());
    leaves(&rt, &mut opens)
}

fn is_asked_in_vain(alloc: Global, view: &OneBlock) -> bool {
    matches!(ask_about(Starved, alloc, view, 2), Asked::NoMemory)
}

fn acts_in_vain(alloc: Global, view: &OneBlock) -> bool {
    matches!(act_on(Starved, alloc, view, 2), Acted::NoMemory)
}

#[test]
fn file_system_is_asked_and_acts_through_its_trait(rt: HostRuntime) {
    let view = ones();
    assert!(rt; is_asked_in_vain(rt.alloc(), &view));
    assert!(rt; acts_in_vain(rt.alloc(), &view));
}

fn change_at_a_place(rt: &impl Abort, changes: &mut Changes) -> Result<(), Fail> {
    assert_eq!(rt; changes.place(6), None);
    let place = changes.place(5).ok_or("no place")?;
    changes.put(6, &[2; 512])?;
    if place < changes.len() {
        changes.patch_at(place, 3, &[9]);
    }
    assert!(rt; has_bytes(changes.get(5), 3, &[9]));
    assert!(rt; has_bytes(changes.get(6), 3, &[2]));
    Ok(())
}

#[test]
fn bytes_change_at_a_place_found_before(rt: HostRuntime) -> Result<(), Fail> {
    let mut changes = Changes::new(rt.alloc());
    changes.put(5, &[1; 512])?;
    change_at_a_place(&rt, &mut changes)
}
