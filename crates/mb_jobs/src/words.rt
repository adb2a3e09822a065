ghost use Rattle.std.specs.Prelude.{◌≡◌, ◌<◌, nat_lt, length, map, IfOk, IfSome, Some, None, if◌then◌else◌};
ghost use Rattle.std.specs.List.{position_or_len};
ghost use Rattle.mb_jobs.specs.Words.{after_word, first_word, is_blank, words_in};

use std::alloc::{AllocError, Global};

/// The place of a line's first blank.
fn blank_in(line: &[u8]) -> Option<usize>
    ensures exact { result ≡ (if nat_lt (position_or_len is_blank line.now) (length line.now) then Some (position_or_len is_blank line.now) else None) }
    ensures within { IfSome result (λ at. at < length line.now) }
{
    line.iter().position(|byte| *byte == b' ')
}

/// A line's first word, and what follows the blank behind it.
pub(crate) fn cut(line: &[u8]) -> (&[u8], &[u8])
    ensures first { result.0.now ≡ first_word line.now }
    ensures after { result.1.now ≡ after_word line.now }
{
    match blank_in(line) {
        Some(at) => (&line[..at], &line[at + 1..]),
        None => (line, &[]),
    }
}

/// The words of a text, cut at each blank.
pub(crate) fn words_of(alloc: Global, text: &[u8]) -> Result<Vec<&[u8]>, AllocError>
    ensures { IfOk result (λ words. map (λ word. word.now) words.items ≡ words_in text.now) }
{
    text.split(|byte| *byte == b' ').collect(alloc)
}
