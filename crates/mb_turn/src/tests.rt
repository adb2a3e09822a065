ghost use Rattle.std.specs.Prelude.{◌≡◌, ◌+◌, if◌then◌else◌, false, [], length, None, Some};
ghost use Rattle.std.specs.List.{AllZip};
ghost use Rattle.mb_turn.specs.Passes.{EachIn, IsIdle, mine};

use crate::{Booked, Errand, Pass, PassList, Turn, each};
use mb_kinds::{Call, Entry, Reply, Seq};
use std::alloc::Global;
use std::sync::Wait;
use std::test::Fail;
use std::thread::Threads;

// A list of entries, in which every caller has begun as many calls as the others.
#[derive(Drop)]
struct Book {
    entries: Seq<Entry>,
    begun: u32,
}

impl Booked for Book {
    type Origin = ();

    ghost list = { λ book. book.entries };

    ghost stand = { λ book _. Some (record { begun = book.begun; flight = None; struck = [] }) };

    ghost origin = { λ _. tt };

    ghost always = { λ _. Unit {0} };

    ghost tally = { λ _. 0 };

    fn entries(&self) -> u64 {
        self.entries.len() as u64
    }

    fn begun(&self, _caller: u8) -> u32 {
        self.begun
    }

    fn show(&self) {}
}

// A pass, and how many entries its thread has added.
#[derive(Drop)]
struct Worker {
    pass: Pass<Book>,
    added: u64,
}

impl Worker {
    fn new(pass: Pass<Book>) -> Worker
        ensures { result ≡ record { pass = pass; added = 0 } }
    {
        Worker { pass, added: 0 }
    }
}

struct Hundred;

// Takes the turn, adds an entry of the pass's caller and gives the turn back. It says whether there
// was memory for the entry.
fn add_one<R: Wait>(rt: &R, turn: &Turn<Book>, pass: &mut Pass<Book>, ordinal: u32) -> bool
    requires { IsIdle turn.now.table pass.old }
    ensures idle { IsIdle turn.now.table pass.new }
    ensures caller { pass.new.caller ≡ pass.old.caller }
    ensures mine { length (mine (λ book. book.entries) pass.new)
        ≡ length (mine (λ book. book.entries) pass.old) + (if result then 1 else 0) }
{
    let mut book = turn.take(rt, pass);
    let entry = Entry {
        caller: pass.caller(),
        ordinal,
        call: Call::Sync,
        pick: None,
        moment: 0,
        reply: Reply::Num(0),
    };
    let added = book.entries.push(entry).is_ok();
    turn.give(pass, book);
    added
}

impl Errand<Turn<Book>, Worker> for Hundred {
    ghost asks = { λ turn worker. IsIdle turn.table worker.pass × (worker.added ≡ 0) };

    ghost gives = { λ turn before after. IsIdle turn.table after.pass × (after.pass.caller ≡ before.pass.caller) × (length (mine (λ book. book.entries) after.pass) ≡ length (mine (λ book. book.entries) before.pass) + after.added) };

    fn run<R: Wait>(&self, rt: &R, shared: &Turn<Book>, own: Worker) -> Worker {
        let Worker { mut pass, added: _ } = own;
        let mut added = 0;
        for ordinal in 1..101 {
            if add_one(rt, shared, &mut pass, ordinal) {
                added += 1;
            }
        }
        Worker { pass, added }
    }
}

// Any errand on any value: passes move to other threads, and the turn is shared.
fn run_each<T: Booked + Send, E: Errand<Turn<T>, Pass<T>> + Sync, R: Threads + Wait + Sync>(
    rt: &R,
    errand: &E,
    turn: &Turn<T>,
    passes: PassList<T>,
) -> PassList<T>
    requires { EachIn (E.asks turn.now) passes.items }
    ensures { AllZip (E.gives turn.now) passes.items result.items }
{
    each(rt, errand, turn, passes)
}

// How many entries are the caller's.
fn count_of(book: &Book, caller: u8) -> usize {
    let entries = book.entries.as_slice().iter();
    entries.filter(|entry| entry.caller == caller).count()
}

#[test]
fn two_threads_add_a_hundred_entries_each(rt: HostRuntime) -> Result<(), Fail> {
    let mut workers = Vec::with_capacity(rt.alloc(), 2)?;
    let book = Book {
        entries: Seq::new(rt.alloc()),
        begun: 7,
    };
    let (turn, mut passes) = match Turn::start(rt.alloc(), book, 2) {
        Ok(started) => started,
        Err(_book) => panic!(rt; "there was no memory"),
    };
    let second = passes.pop().unwrap();
    let first = passes.pop().unwrap();
    assert!(rt; first.caller() == 0 && second.caller() == 1 && second.begun() == 7);
    workers.push_reserved(Worker::new(first));
    workers.push_reserved(Worker::new(second));
    let mut workers = each(&rt, &Hundred, &turn, workers);
    let second = workers.pop().unwrap();
    let first = workers.pop().unwrap();
    passes.push_reserved(first.pass);
    passes.push_reserved(second.pass);
    let book = turn.close(passes);
    assert_eq!(rt; book.entries.len(), 200);
    assert!(rt; first.added == 100 && second.added == 100);
    assert!(rt; count_of(&book, 0) == 100 && count_of(&book, 1) == 100);
    Ok(())
}
