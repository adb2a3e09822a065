use mb_iface::Need;
use mb_kinds::Errno;
use std::alloc::AllocError;

/// Why a question has no answer, or a call no plan.
#[derive(Clone, Copy, Debug, Drop)]
pub enum Halt {
    /// The call is refused with this error.
    Refused(Errno),
    /// These blocks have to be gathered first.
    Need(Need),
    /// It met want of memory, which says nothing of the call.
    NoMemory,
}

impl From<AllocError> for Halt {
    ghost use Rattle.std.specs.Prelude.{◌≡◌};
    ghost use Rattle.mb_calls.specs.declared.halts.Halt.TheVariants.{NoMemory};

    ghost from_gives = { λ _ halt. halt ≡ NoMemory };

    fn from(_error: AllocError) -> Halt {
        Halt::NoMemory
    }
}

impl From<Errno> for Halt {
    ghost use Rattle.std.specs.Prelude.{◌≡◌};
    ghost use Rattle.mb_calls.specs.declared.halts.Halt.TheVariants.{Refused};

    ghost from_gives = { λ e halt. halt ≡ Refused e };

    fn from(error: Errno) -> Halt {
        Halt::Refused(error)
    }
}
