ghost use Rattle.std.specs.Prelude.{◌≡◌, ◌≤◌, ◌<◌, ◌∷◌, [], length, IfOk};
ghost use Rattle.mb_edge.specs.declared.strokes.Stroke.{Stroke};
ghost use Rattle.mb_gen.specs.Faults.{kind_numbered, rule_at, rule_drawn, rules_drawn};

use crate::draws::draw;
use crate::ordinals::ordinal_at;
use mb_edge::{Damage, Stroke};
use mb_jobs::JobCall;
use mb_kinds::Kind;
use mb_plan::Rule;
use rand_core::utils::NextWord;
use std::alloc::{AllocError, Global};

/// The kind of a fault point.
fn kind_numbered(number: u16) -> Kind
    requires { number < 4 }
    ensures { result ≡ kind_numbered number }
{
    match number {
        0 => Kind::Enter,
        1 => Kind::Gather,
        2 => Kind::Finish,
        _ => Kind::Leave,
    }
}

/// The damage `wipe BYTE`.
fn wiping(alloc: Global, byte: u8) -> Result<Damage, AllocError>
    ensures { IfOk result (λ damage. damage ≡ Stroke.Wipe byte ∷ []) }
{
    let mut damage = Damage::new(alloc);
    damage.push(Stroke::Wipe(byte))?;
    Ok(damage)
}

/// The rule that strikes the call at a place, from 0, at its first fault point of a kind.
fn rule_at(
    alloc: Global,
    calls: &[JobCall],
    place: u16,
    kind: u16,
    byte: u8,
) -> Result<Rule, AllocError>
    requires short { length calls.now ≤ 32770 }
    requires inside { place < length calls.now }
    requires kind { kind < 4 }
    ensures { IfOk result (λ rule. rule ≡ rule_at calls.now place kind byte) }
{
    let at = usize::from(place);
    Ok(Rule {
        caller: calls[at].caller,
        ordinal: ordinal_at(calls, at),
        kind: kind_numbered(kind),
        skip: 0,
        times: 1,
        damage: wiping(alloc, byte)?,
    })
}

/// One rule: first the call is drawn, of the first so many, then the kind and the byte.
fn rule_drawn<G: NextWord<u32>>(
    alloc: Global,
    draws: &mut G,
    calls: &[JobCall],
    bound: u16,
) -> Result<Rule, AllocError>
    requires short { length calls.now ≤ 32770 }
    requires some { 1 ≤ bound }
    requires within { bound ≤ length calls.now }
    ensures { IfOk result (λ rule. (rule, draws.new) ≡ rule_drawn G.step calls.now bound draws.old) }
{
    let place = draw(draws, bound);
    let kind = draw(draws, 4);
    let byte = draw(draws, 256);
    rule_at(alloc, calls, place, kind, byte as u8)
}

/// So many rules, one after another, each of one of the first calls.
pub(crate) fn rules_drawn<G: NextWord<u32>>(
    alloc: Global,
    draws: &mut G,
    calls: &[JobCall],
    bound: u16,
    count: u32,
) -> Result<Vec<Rule>, AllocError>
    requires short { length calls.now ≤ 32770 }
    requires some { 1 ≤ bound }
    requires within { bound ≤ length calls.now }
    ensures { IfOk result (λ rules. (rules.items, draws.new) ≡ rules_drawn G.step calls.now bound count draws.old) }
{
    let mut rules = Vec::new(alloc);
    'rules: for _index in 0..count {
        rules.push(rule_drawn(alloc, draws, calls, bound)?)?;
    }
    Ok(rules)
}
