//! A core that notes what each of its events is answered.
use crate::notes::EventNotes;
use mb_cache::Flushed;
use mb_callers::Pages;
use mb_calls::{Performed, Performing, ReadyCall};
use mb_core_spec::{Config, Stage};
use mb_core_state::{Fault, Finished, Gathered, Left};
use mb_edge::{Crossings, Hook, NoMemory};
use mb_iface::Need;
use mb_kinds::{Call, Kind, Ticket};
use mb_run::{EnterAnswer, EventCore, StepAnswer};
use std::alloc::Global;

/// A core, and what its events were answered.
pub struct Recorder<C: EventCore> {
    pub core: C,
    pub notes: EventNotes,
}

impl<C: EventCore> EventCore for Recorder<C> {
    type Origin = C::Origin;

    ghost sight = { λ recorder. C.sight recorder.core };

    ghost faults = { λ recorder. C.faults recorder.core };

    ghost origin = { λ recorder. C.origin recorder.core };

    fn stage(&self) -> Stage {
        self.core.stage()
    }

    fn config(&self) -> &Config {
        self.core.config()
    }

    fn logged(&self) -> u32 {
        self.core.logged()
    }

    fn begun(&self, caller: u8) -> u32 {
        self.core.begun(caller)
    }

    fn perform(
        &self,
        alloc: Global,
        pages: &Pages,
        ticket: &Ticket,
        call: &Call,
        way: &mut Option<Performing>,
    ) -> Performed {
        self.core.perform(alloc, pages, ticket, call, way)
    }

    fn enter(&mut self, alloc: Global, caller: u8, call: &Call) -> EnterAnswer {
        let answer = self.core.enter(alloc, caller, call);
        note_enter(&mut self.notes, caller, &answer);
        answer
    }

    fn gather(
        &mut self,
        alloc: Global,
        ticket: &Ticket,
        need: Need,
        pages: &mut Pages,
    ) -> Gathered {
        let answer = self.core.gather(alloc, ticket, need, pages);
        note_gather(&mut self.notes, ticket.caller, answer);
        answer
    }

    fn finish(
        &mut self,
        alloc: Global,
        ticket: &Ticket,
        pages: &Pages,
        call: &Call,
        ready: ReadyCall,
    ) -> Finished {
        let answer = self.core.finish(alloc, ticket, pages, call, ready);
        note_finish(&mut self.notes, ticket.caller, answer);
        answer
    }

    fn leave(&mut self, ticket: &Ticket) -> Left {
        let answer = self.core.leave(ticket);
        note_leave(&mut self.notes, ticket.caller, &answer);
        answer
    }

    fn fault<H: Hook>(&mut self, ticket: &Ticket, kind: Kind, nth: u32, hook: &H) -> Fault {
        let answer = self.core.fault(ticket, kind, nth, hook);
        note_fault(&mut self.notes, ticket.caller, answer);
        answer
    }

    fn recover_step<H: Hook>(
        &mut self,
        alloc: Global,
        by: &mut Option<Crossings>,
        hook: &mut H,
    ) -> StepAnswer {
        let answer = self.core.recover_step(alloc, by, hook);
        note_step(&mut self.notes, caller_of(by), answer);
        answer
    }

    fn quit(&mut self, caller: u8) {
        self.core.quit(caller);
        self.notes.add_of(Some(caller), "quit");
    }

    fn seal(&mut self) -> Result<(), NoMemory> {
        let answer = self.core.seal();
        match answer {
            Ok(()) => self.notes.add("seal"),
            Err(NoMemory) => self.notes.add("seal no memory"),
        }
        answer
    }

    fn flush_one(&mut self) -> Flushed {
        let answer = self.core.flush_one();
        note_flush(&mut self.notes, answer);
        answer
    }
}

/// The caller of the call that runs a step of a recovery.
fn caller_of(by: &Option<Crossings>) -> Option<u8> {
    match by {
        Some(crossings) => Some(crossings.caller),
        None => None,
    }
}

fn note_enter(notes: &mut EventNotes, caller: u8, answer: &EnterAnswer) {
    let by = Some(caller);
    match answer {
        EnterAnswer::Done(_) => {
            notes.answer(caller);
            notes.add_of(by, "enter done");
        }
        EnterAnswer::Shut => notes.add_of(by, "enter shut"),
        EnterAnswer::Inside(_) => notes.add_of(by, "enter inside"),
        EnterAnswer::NoMemory => notes.add_of(by, "enter no memory"),
    }
}

fn note_gather(notes: &mut EventNotes, caller: u8, answer: Gathered) {
    let by = Some(caller);
    match answer {
        Gathered::Done => {}
        Gathered::Skip { .. } => notes.add_of(by, "gather skip"),
        Gathered::Device => {
            notes.answer(caller);
            notes.fail();
            notes.add_of(by, "gather device");
        }
        Gathered::NoMemory => notes.add_of(by, "gather no memory"),
    }
}

fn note_finish(notes: &mut EventNotes, caller: u8, answer: Finished) {
    let by = Some(caller);
    match answer {
        Finished::Skip { .. } => notes.add_of(by, "finish skip"),
        Finished::Busy { holder } => {
            notes.add_of(by, "finish busy");
            notes.add_of(Some(holder.caller), "holds the floor");
        }
        Finished::Stale { block } => notes.add_number(by, "finish stale", block),
        Finished::NoMemory => notes.add_of(by, "finish no memory"),
        Finished::Logged => notes.add_of(by, "finish logged"),
    }
}

fn note_leave(notes: &mut EventNotes, caller: u8, answer: &Left) {
    let by = Some(caller);
    match answer {
        Left::Skip { .. } => notes.add_of(by, "leave skip"),
        Left::Left(_) => {
            notes.answer(caller);
            notes.add_of(by, "leave left");
        }
    }
}

fn note_fault(notes: &mut EventNotes, caller: u8, answer: Fault) {
    match answer {
        Fault::Skip { .. } => notes.add_of(Some(caller), "fault skip"),
        Fault::Struck { number } => notes.add_number(Some(caller), "struck", number),
    }
}

fn note_step(notes: &mut EventNotes, by: Option<u8>, answer: StepAnswer) {
    match answer {
        StepAnswer::Idle => notes.add_of(by, "idle"),
        StepAnswer::Unwound(ticket) => {
            notes.add_of(by, "unwinds");
            notes.add_of(Some(ticket.caller), "unwound");
        }
        StepAnswer::Failed { faults } => notes.add_number(by, "failed", faults),
        StepAnswer::Dropped => notes.add_of(by, "dropped"),
        StepAnswer::Remounted => notes.add_of(by, "remounted"),
        StepAnswer::Reopened => notes.add_of(by, "reopened"),
        StepAnswer::Replayed(number) => notes.add_number(by, "replayed", number),
        StepAnswer::Resumed => notes.add_of(by, "resumed"),
        StepAnswer::Again { faults } => notes.add_number(by, "again", faults),
        StepAnswer::Device => note_failed_step(notes, by),
        StepAnswer::NoMemory => notes.add_of(by, "step no memory"),
    }
}

/// The call that runs a step of a recovery is answered where the disk fails the step.
fn note_failed_step(notes: &mut EventNotes, by: Option<u8>) {
    notes.fail();
    if let Some(caller) = by {
        notes.answer(caller);
    }
    notes.add_of(by, "step device");
}

fn note_flush(notes: &mut EventNotes, answer: Flushed) {
    match answer {
        Flushed::One => {}
        Flushed::Clean => notes.add("clean"),
        Flushed::Device => {
            notes.fail();
            notes.add("flush device");
        }
    }
}
