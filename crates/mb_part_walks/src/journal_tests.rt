use mb_core_spec::Step;
use mb_journal::Journal;
use mb_kinds::{Call, Entry, FaultRecord, Kind, NoMemory, Reply, Ticket};
use mb_tree::FsOp;

fn fault(ordinal: u32, kind: Kind) -> FaultRecord {
    FaultRecord {
        caller: 1,
        ordinal,
        kind,
        nth: 1,
    }
}

#[test]
fn a_call_is_given_up_at_its_second_own_fault(rt: HostRuntime) -> Result<(), NoMemory> {
    let mut journal = Journal::new(rt.alloc());
    journal.reserve_fault()?;
    journal.record(fault(4, Kind::Gather));
    journal.reserve_fault()?;
    journal.record(fault(4, Kind::Leave));
    assert_eq!(rt; journal.own_faults(1, 4), None);
    journal.reserve_fault()?;
    let number = journal.record(fault(4, Kind::Finish));
    assert_eq!(rt; number, 3);
    assert_eq!(rt; journal.own_faults(1, 4), Some((1, 3)));
    assert_eq!(rt; journal.own_faults(0, 4), None);
    assert_eq!(rt; journal.own_faults(1, 3), None);
    Ok(())
}

#[test]
fn a_checkpoint_empties_the_log(rt: HostRuntime) -> Result<(), NoMemory> {
    let mut journal = Journal::new(rt.alloc());
    let ticket = Ticket {
        caller: 0,
        ordinal: 1,
        incarnation: 0,
        moment: 8,
    };
    journal.reserve_entry()?;
    let entry = Entry {
        caller: 0,
        ordinal: 1,
        call: Call::Umask { mask: 0o22 },
        pick: None,
        moment: 8,
        reply: Reply::Num(0),
    };
    journal.log(entry, Some(FsOp::Hold { ino: 7 }), None, ticket);
    assert_eq!(rt; journal.logged(), 1);
    assert_eq!(rt; journal.sealed_at(), 0);
    journal.seal();
    assert_eq!(rt; journal.logged(), 0);
    assert_eq!(rt; journal.sealed_at(), 1);
    assert_eq!(rt; journal.trail()[1], Step::Sealed(1));
    Ok(())
}
