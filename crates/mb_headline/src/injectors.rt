ghost use Rattle.std.specs.Prelude.{◌≡◌, [], None, Some, IfOk, length, option_map, replicate};
ghost use Rattle.mb_edge.specs.Hooks.{AnswersTest, HasFaultCause, strokes_at, struck_by};
ghost use Rattle.mb_plan.specs.Fires.{fires};

use mb_edge::{Crossing, Damage, Hook, Word};
use mb_jobs::Job;
use mb_plan::PlanHook;
use std::alloc::{AllocError, Global};
use std::boxed::Box;
use std::marker::Model;

/// The fault injector of one caller of a job, which goes by the job's whole plan. It is a `PlanHook` on the heap, and so
/// small: a caller's thread owns and moves it.
#[derive(Drop)]
pub struct Injector<'a> {
    hook: Box<PlanHook<'a>>,
}

impl<'a> Model for Injector<'a> {
    ghost use Rattle.mb_plan.specs.Hooked.{Hooked};

    ghost Value = { Hooked };

    ghost view = { λ a. a.hook.value };
}

impl<'a> Hook for Injector<'a> {
    ghost struck = { λ injector. injector.struck };

    ghost strokes = { λ injector. injector.strokes };

    ghost test = { λ injector. Some (fires injector.rules) };

    ghost faults = { λ injector. injector.faults };

    fn cross(&mut self, at: &Crossing) -> Word {
        self.hook.cross(at)
    }

    fn damage(&self) -> Option<&Damage> {
        self.hook.damage()
    }
}

/// A fault injector for each caller of a job, before its first fault.
pub fn injectors_for<'a>(alloc: Global, job: &'a Job) -> Result<Vec<Injector<'a>>, AllocError>
    ensures { IfOk result (λ injectors. injectors.items
        ≡ replicate (length job.now.callers) (record { rules = job.now.plan; struck = None; strokes = []; faults = 0 })) }
{
    let mut injectors = Vec::with_capacity(alloc, job.callers.len())?;
    for _caller in job.callers.as_slice() {
        let hook = Box::new(alloc, job.plan.hook())?;
        injectors.push(Injector { hook })?;
    }
    Ok(injectors)
}
