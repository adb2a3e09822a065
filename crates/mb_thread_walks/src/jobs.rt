//! The texts of jobs of eight callers.
ghost use Rattle.std.specs.Prelude.{◌<◌};

use std::alloc::{AllocError, Global};

/// Where the callers of a job work.
#[derive(Clone, Copy, PartialEq, Eq, Drop)]
pub enum Workplace {
    /// All of them in the root.
    Root,
    /// Each in a directory of its own.
    Apart,
}

/// Numbers that are drawn one after another, the same ones for the same seed.
#[derive(Drop)]
struct Draws {
    state: u64,
}

impl Draws {
    /// The next number, below that one.
    fn below(&mut self, limit: u16) -> u16
        requires { 0 < limit }
        ensures { result < limit }
    {
        self.state = self
            .state
            .wrapping_mul(6_364_136_223_846_793_005)
            .wrapping_add(1_442_695_040_888_963_407);
        (self.state >> 48) as u16 % limit
    }
}

/// A path of six that a caller names.
fn path(
    alloc: Global,
    draws: &mut Draws,
    caller: char,
    place: Workplace,
) -> Result<String, AllocError> {
    let name = draws.below(6);
    match place {
        Workplace::Root => format!(in alloc; "/f{name}"),
        Workplace::Apart => format!(in alloc; "/{caller}/f{name}"),
    }
}

/// A call of a name, as a job's text has it.
fn name_call(
    alloc: Global,
    draws: &mut Draws,
    caller: char,
    place: Workplace,
) -> Result<String, AllocError> {
    let path = path(alloc, draws, caller, place)?;
    match draws.below(10) {
        0 | 1 => format!(in alloc; "creat {path} 644"),
        2 => format!(in alloc; "open {path} rw"),
        3 => format!(in alloc; "unlink {path}"),
        4 => {
            let other = self::path(alloc, draws, caller, place)?;
            format!(in alloc; "link {path} {other}")
        }
        5 => format!(in alloc; "mkdir {path} 755"),
        6 => format!(in alloc; "rmdir {path}"),
        7 => format!(in alloc; "chmod {path} 60{}", draws.below(8)),
        _ => format!(in alloc; "stat {path}"),
    }
}

/// A call on a descriptor.
fn file_call(alloc: Global, draws: &mut Draws) -> Result<String, AllocError> {
    let fd = 3 + draws.below(4);
    match draws.below(6) {
        0 | 1 => format!(in alloc; "fill {fd} {} {}", draws.below(700), draws.below(256)),
        2 => format!(in alloc; "read {fd} {}", draws.below(600)),
        3 => format!(in alloc; "lseek {fd} {} 0", draws.below(2000)),
        4 => format!(in alloc; "fstat {fd}"),
        _ => format!(in alloc; "close {fd}"),
    }
}

/// The text of a job of eight callers with so many calls each, one of each after another.
pub fn calls_of(
    alloc: Global,
    seed: u64,
    count: u32,
    place: Workplace,
) -> Result<String, AllocError> {
    let mut draws = Draws { state: seed };
    let mut text = String::new(alloc);
    text.push_str(
        "callers = ['a 0 0', 'b 0 0', 'c 1 1', 'd 1 1', 'e 1 2', 'f 2 2', 'g 2 1', 'h 3 3']\ncalls = [",
    )?;
    for caller in 'a'..='h' {
        text.push_str(format!(in alloc; "'{caller} mkdir /{caller} 777', ")?.as_str())?;
    }
    for _ in 0..count {
        for caller in 'a'..='h' {
            let call = if draws.below(2) == 0 {
                name_call(alloc, &mut draws, caller, place)?
            } else {
                file_call(alloc, &mut draws)?
            };
            text.push_str(format!(in alloc; "'{caller} {call}', ")?.as_str())?;
        }
    }
    text.push_str("'a sync']\n")?;
    Ok(text)
}

/// A rule for every so many calls of a job, each of another kind than the one before.
pub fn faults_of(alloc: Global, calls: u32, every: u32) -> Result<String, AllocError>
    requires { 0 < every }
{
    let mut text = String::new(alloc);
    text.push_str("faults = [")?;
    let kinds = ["enter", "gather", "finish", "leave", "remount", "replay"];
    let mut next = 0usize;
    for call in 1..calls {
        if call % every == 0 {
            let kind = kinds[next % 6];
            next = next.wrapping_add(1);
            text.push_str(format!(in alloc;
                "'{call} {kind} 0 1 wipe {}', ",
                call % 256
            )?.as_str())?;
        }
    }
    text.push_str("]\n")?;
    Ok(text)
}
