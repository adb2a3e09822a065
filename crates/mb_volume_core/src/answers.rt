ghost use Rattle.std.specs.Prelude.{◌≡◌};
ghost use Rattle.mb_volume_core.specs.Answers.{as_performed, entered_as, stepped_as};

use mb_calls::ReadyCall;
use mb_core_spec::Ready;
use mb_core_state::Enter;
use mb_recover::Stepped;
use mb_run::{EnterAnswer, StepAnswer};

/// The answer to a call that enters, as the driver has it.
pub fn entered_as(answer: Enter) -> EnterAnswer
    ensures { result ≡ entered_as answer }
{
    match answer {
        Enter::Done(reply) => EnterAnswer::Done(reply),
        Enter::Shut => EnterAnswer::Shut,
        Enter::Inside(ticket) => EnterAnswer::Inside(ticket),
        Enter::NoMemory => EnterAnswer::NoMemory,
    }
}

/// The answer of a step of a recovery, as the driver has it.
pub fn stepped_as(answer: Stepped) -> StepAnswer
    ensures { result ≡ stepped_as answer }
{
    match answer {
        Stepped::Idle => StepAnswer::Idle,
        Stepped::Unwound(ticket) => StepAnswer::Unwound(ticket),
        Stepped::Failed { faults } => StepAnswer::Failed { faults },
        Stepped::Dropped => StepAnswer::Dropped,
        Stepped::Remounted => StepAnswer::Remounted,
        Stepped::Reopened => StepAnswer::Reopened,
        Stepped::Replayed(number) => StepAnswer::Replayed(number),
        Stepped::Resumed => StepAnswer::Resumed,
        Stepped::Again { faults } => StepAnswer::Again { faults },
        Stepped::Device => StepAnswer::Device,
        Stepped::NoMemory => StepAnswer::NoMemory,
    }
}

/// What a call came to, as the core takes it.
pub fn as_ready(ready: ReadyCall) -> Ready
    ensures { result ≡ as_performed ready }
{
    Ready {
        reply: ready.reply,
        op: ready.op,
        pick: ready.pick,
        changes: ready.changes,
        session: ready.session,
        shared: ready.shared,
    }
}
