ghost use Rattle.std.specs.Prelude.{◌≡◌, ◌≤◌, ◌∷◌, [], length, map, IfOk, IfSome, option_map};
ghost use Rattle.mb_jobs.specs.Callers.{caller_in, callers_in, has_letter, letter_in, next_caller, the_caller};

use crate::jobs::Caller;
use crate::numbers::short_of;
use crate::words::cut;
use mb_kinds::Cred;
use std::alloc::{AllocError, Global};

/// The caller of a job that names none: `a`, who is uid 0 and gid 0.
const THE_CALLER: Caller = Caller {
    letter: b'a',
    cred: Cred { uid: 0, gid: 0 },
};

/// The list of that caller alone.
pub(crate) fn one_caller(alloc: Global) -> Result<Vec<Caller>, AllocError>
    ensures { IfOk result (λ callers. callers.items ≡ the_caller ∷ []) }
{
    let mut callers = Vec::new(alloc);
    callers.push(THE_CALLER)?;
    Ok(callers)
}

/// The letter that a word writes.
fn letter_of(word: &[u8]) -> Option<u8>
    ensures { result ≡ letter_in word.now }
{
    match word {
        [letter] if 97 <= *letter && *letter <= 104 => Some(*letter),
        _ => None,
    }
}

/// The caller that a text writes.
fn caller_of(text: &[u8]) -> Option<Caller>
    ensures { result ≡ caller_in text.now }
{
    let (letter, rest) = cut(text);
    let (uid, gid) = cut(rest);
    match (letter_of(letter), short_of(uid), short_of(gid)) {
        (Some(letter), Some(uid), Some(gid)) => Some(Caller {
            letter,
            cred: Cred { uid, gid },
        }),
        _ => None,
    }
}

/// Whether one of some callers has a letter.
fn has_letter(callers: &[Caller], letter: u8) -> bool
    ensures { result ≡ has_letter callers.now letter }
{
    callers.iter().any(|caller| caller.letter == letter)
}

/// The caller that a text writes, where none before has its letter.
fn next_caller(before: &[Caller], text: &[u8]) -> Option<Caller>
    ensures { result ≡ next_caller before.now text.now }
{
    match caller_of(text) {
        Some(caller) if !has_letter(before, caller.letter) => Some(caller),
        _ => None,
    }
}

/// The callers that 1 to 8 texts write, or `None` where one of them writes none.
pub(crate) fn callers_of(alloc: Global, texts: &[&[u8]]) -> Result<Option<Vec<Caller>>, AllocError>
    ensures exact { IfOk result (λ found.
        option_map (λ callers. callers.items) found ≡ callers_in (map (λ text. text.now) texts.now)) }
    ensures few { IfOk result (λ found. IfSome found (λ callers. length callers.items ≤ 8)) }
{
    if texts.is_empty() || texts.len() > 8 {
        return Ok(None);
    }
    let mut callers = Vec::new(alloc);
    'texts: for text in texts {
        match next_caller(&callers, text) {
            Some(caller) => callers.push(caller)?,
            None => return Ok(None),
        }
    }
    Ok(Some(callers))
}
