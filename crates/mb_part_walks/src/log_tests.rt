use mb_kinds::NoMemory;
use mb_oplog::Oplog;
use mb_tree::FsOp;

fn chmod(ino: u16) -> FsOp {
    FsOp::SetMode {
        ino,
        mode: 0o644,
        moment: 7,
    }
}

#[test]
fn operations_are_kept_in_order(rt: HostRuntime) -> Result<(), NoMemory> {
    let mut log = Oplog::new(rt.alloc());
    log.reserve(2)?;
    log.push(chmod(4), Some(9));
    log.push(chmod(5), None);
    assert_eq!(rt; log.len(), 2);
    assert_eq!(rt; log.get(0).pick, Some(9));
    assert_eq!(rt; log.get(1).pick, None);
    log.clear();
    assert_eq!(rt; log.len(), 0);
    Ok(())
}
