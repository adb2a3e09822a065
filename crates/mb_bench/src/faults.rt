use mb_edge::NoMemory;
use std::alloc::{AllocError, AllocFailed};

/// Why a job ends early.
#[derive(Clone, Copy, Debug, PartialEq, Drop)]
pub enum BenchFault {
    /// There is no volume of the size.
    Volume,
    /// A call was refused, or asked too often.
    Call,
    /// Memory was wanted and not given.
    NoMemory,
}

impl BenchFault {
    /// What is printed of it.
    pub fn text(self) -> &'static str {
        match self {
            BenchFault::Volume => "no volume",
            BenchFault::Call => "a call is refused",
            BenchFault::NoMemory => "no memory",
        }
    }
}

impl From<AllocError> for BenchFault {
    fn from(_error: AllocError) -> BenchFault {
        BenchFault::NoMemory
    }
}

impl From<NoMemory> for BenchFault {
    fn from(_error: NoMemory) -> BenchFault {
        BenchFault::NoMemory
    }
}

impl<T: Drop> From<AllocFailed<T>> for BenchFault {
    fn from(_error: AllocFailed<T>) -> BenchFault {
        BenchFault::NoMemory
    }
}
