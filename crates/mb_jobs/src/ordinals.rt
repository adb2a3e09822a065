ghost use Rattle.std.specs.Prelude.{◌≡◌, ◌≤◌, length, IfOk};
ghost use Rattle.mb_jobs.specs.Lists.{ordinals};

use crate::jobs::JobCall;
use std::alloc::{AllocError, Global};

/// For each call its place among its caller's calls, from 1.
pub(crate) fn ordinals(alloc: Global, calls: &[JobCall]) -> Result<Vec<u32>, AllocError>
    requires { length calls.now ≤ 100008 }
    ensures { IfOk result (λ places. places.items ≡ ordinals calls.now) }
{
    let mut counts = [0u32; 256];
    let mut places = Vec::with_capacity(alloc, calls.len())?;
    'calls: for call in calls {
        let slot = usize::from(call.caller);
        let place = counts[slot] + 1;
        counts[slot] = place;
        places.push(place)?;
    }
    Ok(places)
}
