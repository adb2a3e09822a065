ghost use Rattle.std.specs.Prelude.{◌≡◌, [], None, option_map};
ghost use Rattle.mb_edge.specs.Hooks.{AnswersTest, HasFaultCause, strokes_at, struck_by};

use crate::runs::run;
use mb_edge::{Crossing, Damage, Hook, Word};
use mb_jobs::job_of;
use mb_kinds::Kind;
use mb_run::DriveEnd;
use std::alloc::Global;
use std::sync::atomic::{AtomicU64, Ordering};
use std::test::Fail;
use std::thread::yield_now;

// A fault injector that never faults. At its caller's first Gather it raises its flag, and waits until the other's is
// raised, at most a million turns.
#[derive(Drop)]
struct Meeting<'a> {
    mine: &'a AtomicU64,
    other: &'a AtomicU64,
    met: &'a AtomicU64,
    asked: bool,
}

impl<'a> Meeting<'a> {
    fn new(mine: &'a AtomicU64, other: &'a AtomicU64, met: &'a AtomicU64) -> Meeting<'a> {
        Meeting {
            mine,
            other,
            met,
            asked: false,
        }
    }

    // Waits for the other flag.
    fn meet(&self) {
        self.mine.store(1, Ordering::SeqCst);
        for _ in 0..1_000_000 {
            if self.other.load(Ordering::SeqCst) == 1 {
                self.met.fetch_add(1, Ordering::SeqCst);
                return;
            }
            yield_now();
        }
    }
}

impl<'a> Hook for Meeting<'a> {
    ghost struck = { λ _. None };

    ghost strokes = { λ _. [] };

    ghost test = { λ _. None };

    ghost faults = { λ _. 0 };

    fn cross(&mut self, at: &Crossing) -> Word {
        if at.kind == Kind::Gather && !self.asked {
            self.asked = true;
            self.meet();
        }
        Word::Go
    }

    fn damage(&self) -> Option<&Damage> {
        None
    }
}

// Two calls are inside at once: each caller's first call goes on at its Gather only where the other's has come to its own.
// Where the lock is held for a whole call, or one caller's list is run after the other's, no flag is seen.
#[test]
fn two_calls_are_inside_at_once(rt: HostRuntime) -> Result<(), Fail> {
    let alloc: Global = rt.alloc();
    let text = "callers = ['a 0 0', 'b 0 0']\ncalls = ['a stat /', 'b stat /']\n";
    let job = job_of(alloc, text.as_bytes())?;
    let (first, second, met) = (AtomicU64::new(0), AtomicU64::new(0), AtomicU64::new(0));
    let mut hooks = Vec::with_capacity(alloc, 2)?;
    hooks.push(Meeting::new(&first, &second, &met))?;
    hooks.push(Meeting::new(&second, &first, &met))?;
    let left = run(&rt, &job, hooks)?;
    assert_eq!(rt; left.end, DriveEnd::AllDone);
    assert_eq!(rt; left.entries, 4);
    assert_eq!(rt; left.apart, None);
    assert_eq!(rt;
        met.load(Ordering::SeqCst),
        2,
        "each call saw the other inside"
    );
    Ok(())
}
