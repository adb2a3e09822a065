ghost use Rattle.mb_check_files.specs.declared.stops.Stop.TheVariants.{Broken, Device, NoMemory as OutOfMemory};
ghost use Rattle.std.specs.Prelude.{◌≡◌};

use mb_edge::Failed;
use mb_kinds::NoMemory;
use mb_rules::Finding;
use std::alloc::{AllocError, AllocFailed};

/// Why a pass ended before its end.
#[derive(Clone, Copy, Debug, PartialEq, Drop)]
pub enum Stop {
    /// A rule is broken: the first one in the order of the scan.
    Broken(Finding),
    /// The device failed: its count of faults rose.
    Device,
    /// There was no memory.
    NoMemory,
}

impl From<Finding> for Stop {
    ghost from_gives = { λ broken e. e ≡ Broken broken };

    fn from(broken: Finding) -> Stop {
        Stop::Broken(broken)
    }
}

impl From<Failed> for Stop {
    ghost from_gives = { λ _ e. e ≡ Device };

    fn from(_failed: Failed) -> Stop {
        Stop::Device
    }
}

impl From<NoMemory> for Stop {
    ghost from_gives = { λ _ e. e ≡ OutOfMemory };

    fn from(_none: NoMemory) -> Stop {
        Stop::NoMemory
    }
}

impl From<AllocError> for Stop {
    ghost from_gives = { λ _ e. e ≡ OutOfMemory };

    fn from(_refused: AllocError) -> Stop {
        Stop::NoMemory
    }
}

impl<T: Drop> From<AllocFailed<T>> for Stop {
    ghost from_gives = { λ _ e. e ≡ OutOfMemory };

    fn from(_refused: AllocFailed<T>) -> Stop {
        Stop::NoMemory
    }
}
