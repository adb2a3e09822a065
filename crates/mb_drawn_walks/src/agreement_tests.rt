use crate::draws::Draws;
use crate::tallies::OperationTally;
use mb_call_pairs::{Answered, Pair};
use mb_gathering::{SMALL, Size};
use mb_kinds::{Cred, Creds};
use mb_tree::FsOp;
use std::alloc::Global;
use std::process::Abort;
use std::test::Fail;

/// A pair on a volume of a size, for two callers, the second of whom is nobody of uid 0.
fn pair(heap: Global, size: Size) -> Result<Pair, Fail> {
    let creds = [Cred { uid: 0, gid: 0 }, Cred { uid: 5, gid: 6 }];
    Pair::new(heap, &Creds::from_vec(creds.to_vec(heap)?), size)
}

/// The next call is answered by V7 and by the model alike, with the number that V7 picks.
fn agrees(heap: Global, draws: &mut Draws, pair: &mut Pair, moment: u32) -> Result<Answered, Fail> {
    let caller = draws.caller();
    let call = draws.call(heap)?;
    pair.call(caller, &call, moment)
}

/// The next 100,000 calls are answered alike, and after every tenth of them the image shows the model's tree.
fn calls_agree(heap: Global, draws: &mut Draws, pair: &mut Pair) -> Result<(), Fail> {
    for moment in 1..100_001 {
        agrees(heap, draws, pair, moment)?;
        if moment % 10 == 0 {
            pair.shows_the_tree()?;
        }
    }
    pair.is_sound()
}

/// After every tenth of them the image shows the model's tree, and the checker finds no fault in the last.
#[test]
fn random_calls_are_answered_as_the_model_answers(rt: HostRuntime) -> Result<(), Fail> {
    let heap = rt.alloc();
    let mut pair = pair(heap, SMALL)?;
    calls_agree(heap, &mut Draws::new(20_261_127), &mut pair)
}

/// After an operation the image shows the model's tree, and the checker finds no fault in every hundredth.
fn shows(pair: &Pair, tally: &mut OperationTally, op: &FsOp) -> Result<(), Fail> {
    pair.shows_the_tree()?;
    tally.add(op);
    if tally.total() % 100 == 0 {
        pair.is_sound()?;
    }
    Ok(())
}

/// The next call is answered alike; if it did an operation, the image shows the model's tree.
fn shows_next(
    heap: Global,
    draws: &mut Draws,
    pair: &mut Pair,
    tally: &mut OperationTally,
    moment: u32,
) -> Result<(), Fail> {
    let answered = agrees(heap, draws, pair, moment)?;
    match &answered.op {
        Some(op) => shows(pair, tally, op),
        None => Ok(()),
    }
}

/// The next 10,000 operations leave the model's tree, in at most 200,000 calls.
fn operations_agree(
    heap: Global,
    draws: &mut Draws,
    pair: &mut Pair,
) -> Result<OperationTally, Fail> {
    let mut tally = OperationTally::new();
    for moment in 1..200_001 {
        shows_next(heap, draws, pair, &mut tally, moment)?;
        if tally.total() == 10_000 {
            break;
        }
    }
    Ok(tally)
}

/// There are 10,000 operations, ten at least of each kind.
fn are_enough(rt: &impl Abort, tally: OperationTally) {
    assert_eq!(rt; tally.total(), 10_000);
    assert!(rt; tally.least() >= 10);
}

/// The next operations of a seed leave the model's tree, enough of each kind.
fn seed_agrees(rt: &impl Abort, heap: Global, seed: u64, pair: &mut Pair) -> Result<(), Fail> {
    let mut draws = Draws::new(seed);
    let tally = operations_agree(heap, &mut draws, pair)?;
    are_enough(rt, tally);
    Ok(())
}

/// After each operation on a tree that grew by the calls before, the image shows the tree that the model has then, and the
/// checker finds no fault in every hundredth. There are 10,000, some of each kind.
#[test]
fn random_operations_leave_the_tree_that_the_model_has(rt: HostRuntime) -> Result<(), Fail> {
    let heap = rt.alloc();
    let size = Size {
        blocks: 600,
        inodes: 64,
    };
    let mut pair = pair(heap, size)?;
    seed_agrees(&rt, heap, 20_261_128, &mut pair)
}
