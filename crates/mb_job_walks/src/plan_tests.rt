use mb_edge::{Crossing, Damage, Hook, Stroke, Word};
use mb_kinds::Kind;
use mb_plan::{Plan, Rule};
use std::alloc::{AllocError, Global};
use std::process::Abort;

fn wipe(alloc: Global, byte: u8) -> Result<Damage, AllocError> {
    Ok(Damage::from_vec(vec![in alloc; Stroke::Wipe(byte)]?))
}

fn at(ordinal: u32, kind: Kind, nth: u32) -> Crossing {
    Crossing {
        caller: 1,
        ordinal,
        kind,
        nth,
    }
}

fn rule(alloc: Global, skip: u32, times: u32, byte: u8) -> Result<Rule, AllocError> {
    let damage = wipe(alloc, byte)?;
    Ok(Rule {
        caller: 1,
        ordinal: 5,
        kind: Kind::Gather,
        skip,
        times,
        damage,
    })
}

fn add_rules(alloc: Global, rules: &mut Vec<Rule>) -> Result<(), AllocError> {
    rules.push(rule(alloc, 2, 2, 7)?)?;
    rules.push(rule(alloc, 3, 1, 9)?)?;
    Ok(())
}

/// Two rules of one call: at the crossings 3 and 4, and at the crossing 4 alone.
fn two_rules(alloc: Global) -> Result<Plan, AllocError> {
    let mut rules = Vec::new(alloc);
    add_rules(alloc, &mut rules)?;
    Ok(Plan::from_vec(rules))
}

/// The byte of the one wipe that is lent.
fn wiped_with<H: Hook>(hook: &H) -> Option<u8> {
    match hook.damage()?.as_slice() {
        [Stroke::Wipe(byte)] => Some(*byte),
        _ => None,
    }
}

fn fires<H: Hook>(rt: &impl Abort, hook: &mut H) {
    for (crossing, word) in [
        (at(5, Kind::Gather, 2), Word::Go),
        (at(5, Kind::Gather, 3), Word::Fault),
        (at(5, Kind::Gather, 4), Word::Fault),
        (at(5, Kind::Gather, 5), Word::Go),
        (at(5, Kind::Finish, 3), Word::Go),
        (at(6, Kind::Gather, 3), Word::Go),
        (at(5 + 65_536, Kind::Gather, 3), Word::Go),
    ] {
        assert!(rt; hook.cross(&crossing) == word);
    }
    for caller in [2, 9] {
        let other = Crossing {
            caller,
            ..at(5, Kind::Gather, 3)
        };
        assert!(rt; hook.cross(&other) == Word::Go);
    }
}

#[test]
fn a_rule_fires_at_its_call_its_kind_and_its_numbers(rt: HostRuntime) -> Result<(), AllocError> {
    let plan = two_rules(rt.alloc())?;
    let mut hook = plan.hook();
    assert_eq!(rt; plan.len(), 2);
    fires(&rt, &mut hook);
    Ok(())
}

fn first_one_damages<H: Hook>(rt: &impl Abort, hook: &mut H) {
    assert!(rt; hook.cross(&at(5, Kind::Gather, 4)) == Word::Fault);
    assert_eq!(rt; wiped_with(hook), Some(7));
}

#[test]
fn the_first_rule_that_fires_does_its_damage(rt: HostRuntime) -> Result<(), AllocError> {
    let plan = two_rules(rt.alloc())?;
    let mut hook = plan.hook();
    first_one_damages(&rt, &mut hook);
    Ok(())
}

fn lends_after_a_fault<H: Hook>(rt: &impl Abort, hook: &mut H) {
    assert!(rt; hook.damage().is_none(), "before the first crossing");
    assert!(rt; hook.cross(&at(5, Kind::Gather, 3)) == Word::Fault);
    assert!(rt; hook.damage().is_some());
    assert!(rt; hook.cross(&at(5, Kind::Gather, 5)) == Word::Go);
    assert!(rt; hook.damage().is_none(), "after a word to go on");
}

#[test]
fn damage_is_lent_after_a_fault_alone(rt: HostRuntime) -> Result<(), AllocError> {
    let plan = two_rules(rt.alloc())?;
    let mut hook = plan.hook();
    lends_after_a_fault(&rt, &mut hook);
    Ok(())
}

#[test]
fn a_plan_without_rules_strikes_nothing(rt: HostRuntime) {
    let plan = Plan::new(rt.alloc());
    let mut hook = plan.hook();
    assert!(rt; hook.cross(&at(1, Kind::Enter, 1)) == Word::Go);
    assert_eq!(rt; plan.as_slice().len(), 0);
}
