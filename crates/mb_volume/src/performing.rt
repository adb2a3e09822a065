ghost use Rattle.std.specs.Prelude.{◌≡◌, ◌<◌, IfSome, length, true};
ghost use Rattle.mb_core_spec.specs.Copies.{TableCopy};
ghost use Rattle.mb_run.specs.Events.{AsksForLacking};
ghost use Rattle.mb_run.specs.Pages.{IsUnderWay, PerformsOver, has};

use mb_callers::Pages;
use mb_calls::{Performed, Performing};
use mb_iface::FileSys;
use mb_kinds::{Call, Ticket};
use std::alloc::Global;

/// Performs the call of a ticket over its pages, which have the tables of all callers, with the file system's code; it goes
/// on where `way` has it stopped over fewer of them.
pub(crate) fn perform<F: FileSys>(
    alloc: Global,
    fs: &F,
    pages: &Pages,
    ticket: &Ticket,
    call: &Call,
    way: &mut Option<Performing>,
) -> Performed
    requires there { has pages.now 0 ≡ true }
    requires declared { IfSome pages.now.tables (λ (given : TableCopy). ticket.now.caller < length given.sessions) }
    requires going { IsUnderWay pages.now ticket.now.caller call.now way.old }
    ensures going { IsUnderWay pages.now ticket.now.caller call.now way.new }
    ensures performs { PerformsOver pages.now ticket.now.caller call.now ticket.now.moment result }
    ensures asked { AsksForLacking pages.now result }
{
    let Some(sessions) = pages.sessions() else {
        unreachable!()
    };
    let Some(opens) = pages.opens() else {
        unreachable!()
    };
    let seats = sessions.as_slice();
    let on = way.get_or_insert(Performing::new(&seats[usize::from(ticket.caller)]));
    on.go(
        alloc,
        fs,
        pages,
        seats,
        opens,
        ticket.caller,
        call,
        ticket.moment,
    )
}

/// Whether the tables were gathered.
pub(crate) fn has_tables(pages: &Pages) -> bool
    ensures { result ≡ has pages.now 0 }
{
    pages.opens().is_some()
}
