use mb_gate::{Ulog, Undo, Verdict, verdict};
use mb_kinds::{NoMemory, Ticket};

#[test]
fn tickets_pass_in_their_own_incarnation(rt: HostRuntime) {
    let ticket = Ticket {
        caller: 1,
        ordinal: 4,
        incarnation: 2,
        moment: 9,
    };
    for (incarnation, shut, want) in [
        (2, false, Verdict::Pass),
        (2, true, Verdict::Shut),
        (3, false, Verdict::Skip { mine: 2, now: 3 }),
        (3, true, Verdict::Skip { mine: 2, now: 3 }),
        (1, true, Verdict::Skip { mine: 2, now: 1 }),
    ] {
        assert_eq!(rt;
            verdict(&ticket, incarnation, shut),
            want,
            "at {incarnation}"
        );
    }
}

#[test]
fn the_newest_step_is_taken_back_first(rt: HostRuntime) -> Result<(), NoMemory> {
    let mut log = Ulog::new(rt.alloc());
    log.reserve(3)?;
    log.push(Undo::Entered)?;
    log.push(Undo::Reserved(3))?;
    log.push(Undo::Pinned(70))?;
    log.push(Undo::Floor)?;
    assert_eq!(rt; log.pop(), Some(Undo::Floor));
    assert_eq!(rt; log.pop(), Some(Undo::Pinned(70)));
    assert_eq!(rt; log.pop(), Some(Undo::Reserved(3)));
    assert_eq!(rt; log.pop(), Some(Undo::Entered));
    assert_eq!(rt; log.pop(), None);
    Ok(())
}
