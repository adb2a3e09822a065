use crate::texts::Text;
use mb_kinds::{Call, Cred, Seq};
use mb_plan::Plan;
use std::alloc::{AllocError, AllocFailed};

/// One of a job's callers: the letter that its texts begin with, `a` to `h`, and who it is.
#[derive(Clone, Copy, Debug, PartialEq, Eq, Drop)]
pub struct Caller {
    pub letter: u8,
    pub cred: Cred,
}

/// One call of a job. `caller` is the place of its caller in the list of callers, from 0; `text` is
/// what follows the caller's letter and a blank.
#[derive(Debug, Drop)]
pub struct JobCall {
    pub caller: u8,
    pub text: Text,
    pub call: Call,
}

/// What a job's text asks for: its callers, 1 to 8; their calls in order with the `exit`s that are
/// added, at most 100,008; the faults that strike them; the order of the steps, and list order where
/// there is none; the moment before the first call's; after how many logged operations a checkpoint is
/// taken; and the most faults that the volume survives.
#[derive(Drop)]
pub struct Job {
    pub callers: Seq<Caller>,
    pub calls: Seq<JobCall>,
    pub plan: Plan,
    pub order: Option<Text>,
    pub start: u32,
    pub threshold: u32,
    pub limit: u32,
}

/// Why a text gave no job. Where several hold, it is the first of them.
#[derive(Debug, PartialEq, Drop)]
pub enum JobFault {
    /// The text has more than 4,194,304 bytes.
    TooLong,
    /// The text is no UTF-8, or no TOML document.
    NotToml,
    /// The first key, in byte order, that is unknown, missing, of another type, or out of range.
    BadKey { key: Text },
    /// The first call, from 1, that is none or may not stand there.
    BadCall { index: u32 },
    /// The first fault, from 1, that is no rule of one of the calls.
    BadFault { index: u32 },
    /// The first character of the order, from 1, that is no step.
    BadOrder { place: u64 },
    /// Memory ran out; nothing is known of the text.
    NoMemory,
}

impl From<AllocError> for JobFault {
    ghost use Rattle.std.specs.Prelude.{◌≡◌};
    ghost use Rattle.mb_jobs.specs.declared.jobs.JobFault.TheVariants.{NoMemory};

    ghost from_gives = { λ _ fault. fault ≡ NoMemory };

    fn from(_error: AllocError) -> JobFault {
        JobFault::NoMemory
    }
}

impl<T: Drop> From<AllocFailed<T>> for JobFault {
    ghost use Rattle.std.specs.Prelude.{◌≡◌};
    ghost use Rattle.mb_jobs.specs.declared.jobs.JobFault.TheVariants.{NoMemory};

    ghost from_gives = { λ _ fault. fault ≡ NoMemory };

    fn from(_error: AllocFailed<T>) -> JobFault {
        JobFault::NoMemory
    }
}
