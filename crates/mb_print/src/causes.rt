ghost use Rattle.std.specs.Prelude.{◌≡◌, IfOk};
ghost use Rattle.mb_print.specs.Causes.{cause_text, refused_text};

use crate::numerals::field;
use mb_jobs::{JobFault, Text};
use std::alloc::{AllocError, Global};

/// The printed text of a bad key.
fn key_text(alloc: Global, key: &Text) -> Result<Vec<u8>, AllocError>
    ensures { IfOk result (λ text. text.items ≡ cause_text (JobFault.BadKey key.now)) }
{
    let mut text = b"key ".to_vec(alloc)?;
    text.extend_from_slice(key.as_slice())?;
    Ok(text)
}

/// The printed text of a cause why a job is refused.
fn cause_text(alloc: Global, fault: &JobFault) -> Result<Vec<u8>, AllocError>
    ensures { IfOk result (λ text. text.items ≡ cause_text fault.now) }
{
    match fault {
        JobFault::TooLong => b"too long".to_vec(alloc),
        JobFault::NotToml => b"not toml".to_vec(alloc),
        JobFault::BadKey { key } => key_text(alloc, key),
        JobFault::BadCall { index } => field(alloc, b"call ", u64::from(*index)),
        JobFault::BadFault { index } => field(alloc, b"fault ", u64::from(*index)),
        JobFault::BadOrder { place } => field(alloc, b"order ", *place),
        JobFault::NoMemory => b"no memory".to_vec(alloc),
    }
}

/// The line that is printed for a job that is refused: `job refused: ` and the cause, which is
/// `too long`, `not toml`, `key K`, `call I`, `fault I` or `order P`. The only error is want of memory.
pub fn text_of_cause(alloc: Global, fault: &JobFault) -> Result<Text, AllocError>
    ensures { IfOk result (λ text. text ≡ refused_text fault.now) }
{
    let mut line = b"job refused: ".to_vec(alloc)?;
    line.extend_from_slice(&cause_text(alloc, fault)?)?;
    line.push(b'\n')?;
    Ok(Text::from_vec(line))
}
