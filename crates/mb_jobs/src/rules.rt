ghost use Rattle.std.specs.Prelude.{◌≡◌, ◌≤◌, IfOk, Some, length, map, option_map};
ghost use Rattle.std.specs.Result.{result_map_both};
ghost use Rattle.mb_jobs.specs.Lists.{ordinals};
ghost use Rattle.mb_jobs.specs.Numbers.{index_in};
ghost use Rattle.mb_jobs.specs.Rules.{kind_in, rule_in, rule_of, rule_of_words, rules_in};

use crate::jobs::JobCall;
use crate::numbers::{index_of, number_below};
use crate::ordinals::ordinals;
use crate::strokes::strokes_of;
use crate::words::words_of;
use mb_edge::Damage;
use mb_kinds::Kind;
use mb_plan::Rule;
use std::alloc::{AllocError, Global};

/// The kind of fault point that a word names.
fn kind_of(word: &[u8]) -> Option<Kind>
    ensures { result ≡ kind_in word.now }
{
    if word == b"enter".as_slice() {
        Some(Kind::Enter)
    } else if word == b"gather".as_slice() {
        Some(Kind::Gather)
    } else if word == b"finish".as_slice() {
        Some(Kind::Finish)
    } else if word == b"leave".as_slice() {
        Some(Kind::Leave)
    } else if word == b"remount".as_slice() {
        Some(Kind::Remount)
    } else if word == b"replay".as_slice() {
        Some(Kind::Replay)
    } else {
        None
    }
}

/// The calls that faults strike: all of a job, each with its place among its caller's calls.
#[derive(Clone, Copy, Drop)]
struct Struck<'a> {
    calls: &'a [JobCall],
    ordinals: &'a [u32],
}

/// The rule of an index of a call, from 1, and of the other parts.
fn rule_with(
    struck: Struck<'_>,
    index: u32,
    kind: Kind,
    skip: u32,
    times: u32,
    damage: Damage,
) -> Option<Rule>
    requires one { 1 ≤ index }
    requires within { index ≤ length struck.calls.now }
    requires ordinals { struck.ordinals.now ≡ ordinals struck.calls.now }
    ensures { result ≡ rule_of struck.entry.calls.now (Some index) (Some kind) (Some skip) (Some times) (Some damage) }
{
    let at = index as usize - 1;
    Some(Rule {
        caller: struck.calls[at].caller,
        ordinal: struck.ordinals[at],
        kind,
        skip,
        times,
        damage,
    })
}

/// The rule that some words write.
fn of_words(alloc: Global, struck: Struck<'_>, words: &[&[u8]]) -> Result<Option<Rule>, AllocError>
    requires short { length struck.calls.now ≤ 100008 }
    requires ordinals { struck.ordinals.now ≡ ordinals struck.calls.now }
    ensures { IfOk result (λ found. found ≡ rule_of_words struck.entry.calls.now (map (λ word. word.now) words.now)) }
{
    let [call, kind, skip, times, strokes @ ..] = words else {
        return Ok(None);
    };
    let index = index_of(struck.calls.len() as u32, call);
    let kind = kind_of(kind);
    let skip = number_below(100_001, skip);
    let times = index_of(255, times);
    match (index, kind, skip, times, strokes_of(alloc, strokes)?) {
        (Some(index), Some(kind), Some(skip), Some(times), Some(strokes)) => Ok(rule_with(
            struck,
            index,
            kind,
            skip as u32,
            times,
            Damage::from_vec(strokes),
        )),
        _ => Ok(None),
    }
}

/// The rule that one text of the list `faults` writes, or `None` where it writes none.
fn rule_of(alloc: Global, struck: Struck<'_>, text: &[u8]) -> Result<Option<Rule>, AllocError>
    requires short { length struck.calls.now ≤ 100008 }
    requires ordinals { struck.ordinals.now ≡ ordinals struck.calls.now }
    ensures { IfOk result (λ found. found ≡ rule_in struck.entry.calls.now text.now) }
{
    let words = words_of(alloc, text)?;
    of_words(alloc, struck, &words)
}

/// The rules of some texts over calls whose places are known.
fn rules_over(
    alloc: Global,
    struck: Struck<'_>,
    texts: &[&[u8]],
) -> Result<Result<Vec<Rule>, u32>, AllocError>
    requires short { length struck.calls.now ≤ 100008 }
    requires ordinals { struck.ordinals.now ≡ ordinals struck.calls.now }
    requires few { length texts.now ≤ 1000 }
    ensures { IfOk result (λ found. result_map_both (λ rules. rules.items) (λ index. index) found
        ≡ rules_in struck.entry.calls.now (map (λ text. text.now) texts.now)) }
{
    let mut rules = Vec::with_capacity(alloc, texts.len())?;
    'texts: for text in texts {
        match rule_of(alloc, struck, text)? {
            Some(rule) => rules.push(rule)?,
            None => return Ok(Err(rules.as_slice().len() as u32 + 1)),
        }
    }
    Ok(Ok(rules))
}

/// The rules that a list of texts writes for a job's calls, or the index of the first text that
/// writes none, from 1.
pub(crate) fn rules_of(
    alloc: Global,
    calls: &[JobCall],
    texts: &[&[u8]],
) -> Result<Result<Vec<Rule>, u32>, AllocError>
    requires short { length calls.now ≤ 100008 }
    requires few { length texts.now ≤ 1000 }
    ensures { IfOk result (λ found.
        result_map_both (λ rules. rules.items) (λ index.
        index) found ≡ rules_in calls.now (map (λ text. text.now) texts.now)) }
{
    if texts.is_empty() {
        return Ok(Ok(Vec::new(alloc)));
    }
    let places = ordinals(alloc, calls)?;
    let struck = Struck {
        calls,
        ordinals: &places,
    };
    rules_over(alloc, struck, texts)
}
