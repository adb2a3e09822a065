ghost use Rattle.std.specs.Prelude.{◌≡◌};
ghost use Rattle.mb_threads.specs.Workers.{IsReady, IsWorked};

use mb_edge::{Disk, Hook};
use mb_iface::FileSys;
use mb_jobs::JobCall;
use mb_turn::{Errand, Pass};
use mb_volume::{SharedCore, Volume};
use std::alloc::Global;
use std::sync::Wait;

/// A caller of a job: its pass and its fault injector, with the job's calls, and whether it met want of memory.
#[derive(Drop)]
pub(crate) struct Worker<'a, F: FileSys, D: Disk, H: Hook> {
    pub pass: Pass<SharedCore<F, D>>,
    pub hook: H,
    pub calls: &'a [JobCall],
    pub stopped: bool,
}

/// Makes the calls of the worker's caller, in their order, until one meets want of memory.
#[derive(Drop)]
pub(crate) struct MakeCalls {
    pub alloc: Global,
}

impl<'a, F: FileSys, D: Disk, H: Hook + Drop> Errand<Volume<F, D>, Worker<'a, F, D, H>>
    for MakeCalls {
    ghost asks = { λ volume worker. IsReady volume.table worker.pass (H.test worker.hook) worker.calls.now };

    ghost gives = { λ volume before after. IsWorked volume.table before.pass after.pass (H.test before.hook) before.calls.now after.stopped };

    fn run<R: Wait>(
        &self,
        rt: &R,
        shared: &Volume<F, D>,
        own: Worker<'a, F, D, H>,
    ) -> Worker<'a, F, D, H> {
        let Worker {
            mut pass,
            mut hook,
            calls,
            stopped: _,
        } = own;
        let caller = pass.caller();
        for made in calls {
            if made.caller != caller {
                continue;
            }
            match shared.call(rt, self.alloc, &mut pass, &mut hook, &made.call) {
                Ok(_) => {}
                Err(_) => {
                    return Worker {
                        pass,
                        hook,
                        calls,
                        stopped: true,
                    };
                }
            }
        }
        shared.wake();
        Worker {
            pass,
            hook,
            calls,
            stopped: false,
        }
    }
}
