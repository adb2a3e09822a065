use crate::benches::{Answered, Bench};
use crate::images::shown_tree;
use mb_calls::Performed;
use mb_check::{OpenFault, sound};
use mb_check_tree::machine;
use mb_edge::MemDisk;
use mb_gathering::Size;
use mb_kinds::{Call, Creds, Reply};
use mb_model_walks::tree_difference;
use mb_tree::{Machine, Tree};
use std::alloc::Global;
use std::test::Fail;

/// A volume, and beside it the reference model's machine that opening it gives.
#[derive(Drop)]
pub struct Pair {
    heap: Global,
    bench: Bench,
    machine: Machine,
}

/// Says why a disk is no volume.
fn no_volume<T>(heap: Global, fault: OpenFault) -> Result<T, Fail> {
    Err(format!(in heap; "no volume: {fault:?}")?.into())
}

/// The machine that opening a disk gives.
fn opened(heap: Global, disk: &mut MemDisk, callers: &Creds) -> Result<Machine, Fail> {
    match machine(heap, disk, callers) {
        Ok(machine) => Ok(machine),
        Err(fault) => no_volume(heap, fault),
    }
}

/// The machine that opening the bench's volume gives.
fn machine_of(heap: Global, bench: &Bench, callers: &Creds) -> Result<Machine, Fail> {
    let mut disk = bench.disk()?;
    opened(heap, &mut disk, callers)
}

/// A disk is a volume by the checker.
fn is_volume(heap: Global, disk: &mut MemDisk) -> Result<(), Fail> {
    match sound(heap, disk) {
        Ok(_) => Ok(()),
        Err(fault) => no_volume(heap, fault),
    }
}

/// Two trees are one.
fn are_one(heap: Global, shown: &Tree, tree: &Tree) -> Result<(), Fail> {
    match tree_difference(heap, shown, tree)? {
        Some(apart) => Err(format!(in heap; "{apart:?}")?.into()),
        None => Ok(()),
    }
}

/// Two replies of a call are one.
fn are_alike(heap: Global, moment: u32, reply: &Reply, wanted: &Reply) -> Result<(), Fail> {
    if reply == wanted {
        return Ok(());
    }
    Err(format!(in heap; "call {moment}: {reply:?}, and not {wanted:?}")?.into())
}

impl Pair {
    /// The fresh volume of a size, opened for callers that begin.
    pub fn new(heap: Global, callers: &Creds, size: Size) -> Result<Pair, Fail> {
        let bench = Bench::new(heap, callers, size)?;
        let machine = machine_of(heap, &bench, callers)?;
        Ok(Pair {
            heap,
            bench,
            machine,
        })
    }

    /// The model answers a call as it was answered, with the number that V7 picked.
    fn steps(
        &mut self,
        caller: u8,
        call: &Call,
        moment: u32,
        answered: &Answered,
    ) -> Result<(), Fail> {
        if usize::from(caller) >= self.machine.seats.len() {
            return Err("there is no such caller".into());
        }
        let heap = self.heap;
        let wanted = self
            .machine
            .step(heap, caller, call, moment, answered.pick)?;
        are_alike(heap, moment, &answered.reply, &wanted)
    }

    /// Makes a call, which has to be answered as the model answers it with the number that V7 picks.
    pub fn call(&mut self, caller: u8, call: &Call, moment: u32) -> Result<Answered, Fail> {
        let answered = self.bench.call(caller, call, moment)?;
        self.steps(caller, call, moment, &answered)?;
        Ok(answered)
    }

    /// What a call is answered where all blocks are there from the beginning, `None` where it met want of memory. Nothing is
    /// changed.
    pub fn reply_at_once(
        &self,
        caller: u8,
        call: &Call,
        moment: u32,
    ) -> Result<Option<Reply>, Fail> {
        match self.bench.performed(caller, call, moment)? {
            Performed::Ready(ready) => Ok(Some(ready.reply)),
            Performed::Need(_) => Err("a block is asked for that is there".into()),
            Performed::NoMemory => Ok(None),
        }
    }

    /// The image is a volume by the checker.
    pub fn is_sound(&self) -> Result<(), Fail> {
        let mut disk = self.bench.disk()?;
        is_volume(self.heap, &mut disk)
    }

    /// The bytes of the image show the machine's tree.
    pub fn shows_the_tree(&self) -> Result<(), Fail> {
        let shown = shown_tree(self.heap, self.bench.volume())?;
        are_one(self.heap, &shown, &self.machine.tree)
    }
}
