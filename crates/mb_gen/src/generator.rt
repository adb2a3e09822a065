ghost use Rattle.std.specs.Prelude.{◌≡◌, ◌≤◌, ◌∷◌, [], IfOk};
ghost use Rattle.mb_gen.specs.Generator.{generated, job_drawn, the_callers};

use crate::calls::calls_drawn;
use crate::exits::with_exits;
use crate::rules::rules_drawn;
use mb_jobs::{Caller, Job};
use mb_kinds::{Cred, NoMemory, Seq};
use mb_plan::Plan;
use rand_core::utils::NextWord;
use rand_pcg::Lcg64Xsh32;
use std::alloc::{AllocError, Global};

/// After how many logged operations a checkpoint is taken, as where a job names no number.
const THRESHOLD: u32 = 64;

/// The most faults that the volume survives, as where a job names no number.
const LIMIT: u32 = 255;

/// A caller who is uid 0 and gid 0.
fn root_caller(letter: u8) -> Caller
    ensures { result ≡ record { letter = letter; cred = record { uid = 0; gid = 0 } } }
{
    Caller {
        letter,
        cred: Cred { uid: 0, gid: 0 },
    }
}

/// The callers `a 0 0` and `b 0 0`.
fn the_callers(alloc: Global) -> Result<Vec<Caller>, AllocError>
    ensures { IfOk result (λ callers. callers.items ≡ the_callers) }
{
    Ok(Vec::from_array(alloc, [root_caller(b'a'), root_caller(b'b')])?)
}

/// The job that draws give.
fn job_drawn<G: NextWord<u32>>(
    alloc: Global,
    draws: &mut G,
    calls: u16,
    faults: u32,
) -> Result<Job, AllocError>
    requires some { 1 ≤ calls }
    requires many { calls ≤ 32768 }
    ensures { IfOk result (λ job. job ≡ job_drawn G.step calls faults draws.old) }
{
    let made = calls_drawn(alloc, draws, calls)?;
    let all = with_exits(alloc, made)?;
    let rules = rules_drawn(alloc, draws, &all, calls, faults)?;
    Ok(Job {
        callers: Seq::from_vec(the_callers(alloc)?),
        calls: Seq::from_vec(all),
        plan: Plan::from_vec(rules),
        order: None,
        start: 0,
        threshold: THRESHOLD,
        limit: LIMIT,
    })
}

/// The job of a number (this project's choice): `calls` calls, 1 to 32,768, of the callers `a 0 0` and
/// `b 0 0`, and `faults` rules, at most 255. There is no order, `start` is 0, `threshold` 64, `limit` 255.
///
/// Draws are the words of PCG32, begun at the state `number` on its stream 1, one after another; `d(m)` is
/// the next of them modulo m. For each call the caller is `a` where `d(2)` is 0, else `b`; then `d(8)` is a
/// row of this table, whose words are drawn from left to right.
///
/// | Row | Call | Draws |
/// |---|---|---|
/// | 0 | `creat /gN 644` | N is `d(16)` |
/// | 1 | `open /gN rw` | N is `d(16)` |
/// | 2 | `fill F C B` | F is `3 + d(4)`, C is `d(512)`, B is `d(256)` |
/// | 3 | `read F C` | F is `3 + d(4)`, C is `d(512)` |
/// | 4 | `close F` | F is `3 + d(4)` |
/// | 5 | `unlink /gN` | N is `d(16)` |
/// | 6 | `stat /gN` | N is `d(16)` |
/// | 7 | `lseek F O 0` | F is `3 + d(4)`, O is `d(8192)` |
///
/// Each caller that has a call gets an `exit` behind them, as in every job. Then come the rules
/// `CALL KIND 0 1 wipe BYTE`: CALL is `1 + d(calls)`, KIND by `d(4)` `enter`, `gather`, `finish` or `leave`,
/// and BYTE `d(256)`.
///
/// It takes memory in proportion to `calls`, and time in proportion to `calls` for each rule. The only error
/// is want of memory.
pub fn generate(alloc: Global, number: u32, calls: u32, faults: u32) -> Result<Job, NoMemory>
    requires some { 1 ≤ calls }
    requires many { calls ≤ 32768 }
    requires few { faults ≤ 255 }
    ensures { IfOk result (λ job. job ≡ generated number calls faults) }
{
    let mut draws = Lcg64Xsh32::new(u64::from(number), 1);
    Ok(job_drawn(alloc, &mut draws, calls as u16, faults)?)
}
