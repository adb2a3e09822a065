ghost use Rattle.std.specs.Prelude.{◌≡◌, vec_len, vec_capacity};
ghost use Rattle.std.specs.List.{AllZip};
ghost use denote.Param.Send.{IsSend, IsSync};
ghost use Rattle.mb_turn.specs.Passes.{EachIn};

use std::sync::Wait;
use std::thread::{Threads, join};

/// What a thread does with what it owns, over what all threads share.
pub trait Errand<S, A> {
    // What has to hold before it runs, and what holds of the thing given back.
    ghost asks: { S → A → Type 0 };

    ghost gives: { S → A → A → Type 0 };

    /// Does the errand with `own`, and gives it back. It may wait for other threads.
    fn run<R: Wait>(&self, rt: &R, shared: &S, own: A) -> A
        requires { asks shared.now own }
        ensures { gives shared.now own result };
}

/// Runs the errand for each of `owns` in a thread of its own, and gives them back in order.
pub fn each<S: Sync, A: Drop + Send, E: Errand<S, A> + Sync, R: Threads + Wait + Sync>(
    rt: &R,
    errand: &E,
    shared: &S,
    mut owns: Vec<A>,
) -> Vec<A>
    requires { EachIn (E.asks shared.now) owns.items }
    ensures len { (vec_len result ≡ vec_len owns) × (vec_capacity result ≡ vec_capacity owns) }
    ensures gives { AllZip (E.gives shared.now) owns.items result.items }
{
    let Some(one) = owns.pop() else {
        return owns;
    };
    let (one, mut rest) = join(
        rt,
        move || -> A
            requires { E.asks shared.now one }
            ensures { E.gives shared.entry.now one result }
        { errand.run(rt, shared, one) },
        move || -> Vec<A>
            requires { IsSync R.row × IsSync S.row × IsSync E.row × IsSend A.row × EachIn (E.asks shared.now) owns.items }
            ensures len { (vec_len result ≡ vec_len owns) × (vec_capacity result ≡ vec_capacity owns) }
            ensures gives { AllZip (E.gives shared.entry.now) owns.items result.items }
        { each(rt, errand, shared, owns) },
    );
    rest.push_reserved(one);
    rest
}
