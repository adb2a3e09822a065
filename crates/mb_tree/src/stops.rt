ghost use Rattle.std.specs.Prelude.{◌≡◌};

use mb_kinds::Errno;
use std::alloc::AllocError;

/// Why a function of the model gives no value.
#[derive(Clone, Copy, Debug, Drop)]
pub enum Stop {
    /// It met want of memory, which says nothing of the call.
    NoMemory,
    /// The call is refused with this error.
    Refused(Errno),
}

impl From<AllocError> for Stop {
    ghost use Rattle.std.specs.Prelude.{◌≡◌};
    ghost use Rattle.mb_tree.specs.declared.stops.Stop.TheVariants.{NoMemory};

    ghost from_gives = { λ _ stop. stop ≡ NoMemory };

    fn from(_error: AllocError) -> Stop {
        Stop::NoMemory
    }
}

impl From<Errno> for Stop {
    ghost use Rattle.std.specs.Prelude.{◌≡◌};
    ghost use Rattle.mb_tree.specs.declared.stops.Stop.TheVariants.{Refused};

    ghost from_gives = { λ e stop. stop ≡ Refused e };

    fn from(error: Errno) -> Stop {
        Stop::Refused(error)
    }
}
