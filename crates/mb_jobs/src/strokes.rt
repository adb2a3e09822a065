ghost use Rattle.std.specs.Prelude.{◌≡◌, ◌≢◌, ◌≤◌, IfOk, IfSome, IfNone, Some, None, drop, length, map, option_map};
ghost use Rattle.mb_jobs.specs.Numbers.{index_in, number_below, short_in};
ghost use Rattle.mb_jobs.specs.Rules.{count_in, long_stroke, page_of, strokes_in, strokes_with};

use crate::numbers::{byte_of, index_of, number_below, short_of};
use mb_edge::Stroke;
use std::alloc::{AllocError, Global};

/// `wipe BYTE`, of what follows the verb.
fn wipe_of(byte: &[u8]) -> Option<Stroke>
    ensures { result ≡ option_map Stroke.Wipe (number_below 256 byte.now) }
{
    match byte_of(byte) {
        Some(byte) => Some(Stroke::Wipe(byte)),
        None => None,
    }
}

/// `page NTH BYTE`, of what follows the verb.
fn page_of(nth: &[u8], byte: &[u8]) -> Option<Stroke>
    ensures { result ≡ page_of (number_below 262144 nth.now) (number_below 256 byte.now) }
{
    match (number_below(262_144, nth), byte_of(byte)) {
        (Some(nth), Some(byte)) => Some(Stroke::Page {
            nth: nth as u32,
            bytes: [byte; 512],
        }),
        _ => None,
    }
}

/// `count INO N`, of what follows the verb.
fn count_of(ino: &[u8], count: &[u8]) -> Option<Stroke>
    ensures { result ≡ count_in (index_in 65528 ino.now) (short_in count.now) }
{
    match (index_of(65_528, ino), short_of(count)) {
        (Some(ino), Some(count)) => Some(Stroke::Count {
            ino: ino as u16,
            count: u32::from(count),
        }),
        _ => None,
    }
}

/// A stroke of three words.
fn long_stroke(verb: &[u8], first: &[u8], second: &[u8]) -> Option<Stroke>
    ensures { result ≡ long_stroke verb.now first.now second.now }
{
    if verb == b"page".as_slice() {
        page_of(first, second)
    } else if verb == b"count".as_slice() {
        count_of(first, second)
    } else {
        None
    }
}

/// The first stroke of some words, and how many words it has.
fn first_stroke(words: &[&[u8]]) -> Option<(Stroke, usize)>
    ensures some { IfSome result (λ found. strokes_in (map (λ word. word.now) words.now)
        ≡ strokes_with (Some found.0) (strokes_in (map (λ word. word.now) (drop found.1 words.now)))) }
    ensures size { IfSome result (λ found. 2 ≤ found.1) }
    ensures within { IfSome result (λ found. found.1 ≤ length words.now) }
    ensures small { IfSome result (λ found. found.1 ≤ 3) }
    ensures none { IfNone result (length words.now ≢ 0 → strokes_in (map (λ word. word.now) words.now) ≡ None) }
{
    match words {
        [verb, byte, ..] if *verb == b"wipe".as_slice() => match wipe_of(byte) {
            Some(stroke) => Some((stroke, 2)),
            None => None,
        },
        [verb, first, second, ..] => match long_stroke(verb, first, second) {
            Some(stroke) => Some((stroke, 3)),
            None => None,
        },
        _ => None,
    }
}

/// The strokes that some words write.
pub(crate) fn strokes_of(alloc: Global, words: &[&[u8]]) -> Result<Option<Vec<Stroke>>, AllocError>
    ensures { IfOk result (λ found. option_map (λ strokes. strokes.items) found ≡ strokes_in (map (λ word. word.now) words.now)) }
{
    let mut strokes = Vec::new(alloc);
    let mut rest = words;
    'strokes: while !rest.is_empty() {
        let Some((stroke, size)) = first_stroke(rest) else {
            return Ok(None);
        };
        strokes.push(stroke)?;
        rest = &rest[size..];
    }
    Ok(Some(strokes))
}
