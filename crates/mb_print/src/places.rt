ghost use Rattle.std.specs.Prelude.{◌≡◌, ◌≢◌, ◌+◌, ◌<◌, ◌∷◌, [], ℕ, MatchOption, drop, length, slice_index, slice_index_or};
ghost use Rattle.mb_print.specs.Places.{head_text, left_of, own_calls};
ghost use Rattle.mb_jobs.specs.declared.jobs.JobCall.{JobCall};

use mb_jobs::JobCall;

/// A place in the list of calls for each number that a caller may have, all at the list's beginning.
pub(crate) fn first_places() -> [usize; 256]
    ensures { (caller : ℕ) → slice_index result caller ≡ 0 }
{
    [0; 256]
}

/// The place of a caller's first call at or after a place.
fn find_own(calls: &[JobCall], caller: u8, from: usize) -> Option<usize>
    ensures { MatchOption result (own_calls caller (drop from calls.now) ≡ [])
        (λ at. (at < length calls.now) × ((call : JobCall) →
        own_calls caller (drop from calls.now) ≡ slice_index_or calls.now at call ∷ own_calls caller (drop (at + 1) calls.now))) }
{
    let mut at = from;
    'calls: while at < calls.len() {
        if calls[at].caller == caller {
            return Some(at);
        }
        at += 1;
    }
    None
}

/// The text of a caller's next call, and its place moved behind that call; an empty text where the
/// caller has no further call.
pub(crate) fn next_text<'a>(calls: &'a [JobCall], places: &mut [usize; 256], caller: u8) -> &'a [u8]
    ensures text { result.now ≡ head_text (left_of calls.now places.old caller) }
    ensures taken { left_of calls.now places.new caller ≡ drop 1 (left_of calls.now places.old caller) }
    ensures others { (other : ℕ) → other ≢ caller → left_of calls.now places.new other ≡ left_of calls.now places.old other }
{
    let slot = usize::from(caller);
    match find_own(calls, caller, places[slot]) {
        Some(at) => {
            places[slot] = at + 1;
            calls[at].text.as_slice()
        }
        None => {
            places[slot] = calls.len();
            b""
        }
    }
}
