ghost use Rattle.std.specs.Prelude.{◌≡◌, ◌≤◌, ◌<◌, ◌+◌, length};
ghost use Rattle.mb_jobs.specs.Lists.{calls_of};
ghost use Rattle.mb_jobs.specs.Rules.{ordinal_at};

use mb_jobs::JobCall;

/// How many calls of a caller there are.
fn calls_of(calls: &[JobCall], caller: u8) -> u32
    requires { length calls.now ≤ 32770 }
    ensures exact { result ≡ calls_of calls.now caller }
    ensures few { result ≤ length calls.now }
{
    let mut count = 0;
    'calls: for call in calls {
        if call.caller == caller {
            count += 1;
        }
    }
    count
}

/// The place of a call among its caller's calls, from 1. The call is named by its place, from 0.
pub(crate) fn ordinal_at(calls: &[JobCall], place: usize) -> u32
    requires short { length calls.now ≤ 32770 }
    requires inside { place < length calls.now }
    ensures { result ≡ ordinal_at calls.now (1 + place) }
{
    calls_of(&calls[..place], calls[place].caller) + 1
}
