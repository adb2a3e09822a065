ghost use Rattle.std.specs.Prelude.{◌≡◌, ◌<◌, IfOk, option_map, slice_get};
ghost use Rattle.std.specs.List.{AllByRecursion};
ghost use Rattle.mb_jobs.specs.declared.jobs.JobCall.{JobCall};
ghost use Rattle.mb_run.specs.Indexes.{IsIndexOf};
ghost use Rattle.mb_run.specs.Served.{calls_of};

use mb_edge::NoMemory;
use mb_jobs::JobCall;
use mb_kinds::{Call, Seq};
use std::alloc::Global;

/// Where the calls of each caller stand in a job's list, in the caller's order. It is made once a run, so that a caller's
/// next call is found in constant time.
#[derive(Drop)]
pub struct CallIndex {
    pub places: [Seq<usize>; 8],
}

impl CallIndex {
    /// The index of a job's calls, whose callers are 0 to 7. The only error is want of memory.
    pub fn new(alloc: Global, calls: &[JobCall]) -> Result<CallIndex, NoMemory>
        requires { AllByRecursion (λ (made : JobCall). made.caller < 8) calls.now }
        ensures { IfOk result (λ index. IsIndexOf calls.now index.places) }
    {
        let mut places = [
            Seq::new(alloc),
            Seq::new(alloc),
            Seq::new(alloc),
            Seq::new(alloc),
            Seq::new(alloc),
            Seq::new(alloc),
            Seq::new(alloc),
            Seq::new(alloc),
        ];
        let mut place: usize = 0;
        for made in calls {
            places[made.caller as usize].push(place)?;
            place += 1;
        }
        Ok(CallIndex { places })
    }
}

/// The call of a caller's list at a place, from 0.
pub fn find_call<'a>(
    calls: &'a [JobCall],
    index: &CallIndex,
    caller: u8,
    place: u32,
) -> Option<&'a Call>
    requires { IsIndexOf calls.now index.now.places }
    ensures { option_map (λ call. call.now) result ≡ slice_get (calls_of calls.now caller) place }
{
    let Some(places) = index.places.get(caller as usize) else {
        return None;
    };
    let Some(at) = places.get(place as usize) else {
        return None;
    };
    let Some(made) = calls.get(*at) else {
        return None;
    };
    Some(&made.call)
}
