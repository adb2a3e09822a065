ghost use Rattle.std.specs.Prelude.{◌≡◌};
ghost use Rattle.mb_gate.specs.Verdicts.{verdict_of};

use crate::verdicts::Verdict;
use mb_kinds::Ticket;

/// Whether the call with that ticket goes on in a volume of that incarnation, where `shut` says that a recovery is
/// in progress: `Skip` exactly where the ticket is of another incarnation, else `Shut` exactly where the volume is
/// shut, else `Pass`.
pub fn verdict(ticket: &Ticket, incarnation: u32, shut: bool) -> Verdict
    ensures { result ≡ verdict_of ticket.now incarnation shut }
{
    if ticket.incarnation != incarnation {
        return Verdict::Skip {
            mine: ticket.incarnation,
            now: incarnation,
        };
    }
    if shut { Verdict::Shut } else { Verdict::Pass }
}
