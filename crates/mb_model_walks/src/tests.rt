use crate::{Cause, Difference, first_difference, first_line_apart};
use mb_jobs::job_of;
use mb_kinds::{Call, Cred, Entry, Errno, Path, Reply, Seq};
use mb_tree::{Body, DOT, DOT_DOT, Machine, Map, Node, PlainSlot, Seat, Tree};
use std::alloc::Global;
use std::test::Fail;

/// The reference model on the fresh volume of 100 blocks and 16 inodes, with so many callers of uid 0.
fn machine(heap: Global, callers: usize) -> Result<Machine, Fail> {
    let mut slots = Seq::new(heap);
    slots.push(PlainSlot { ino: 2, name: DOT })?;
    slots.push(PlainSlot {
        ino: 2,
        name: DOT_DOT,
    })?;
    let mut nodes = Map::new(heap);
    nodes.insert(
        2,
        Node {
            mode: 0o040777,
            nlink: 2,
            uid: 0,
            gid: 0,
            atime: 0,
            mtime: 0,
            ctime: 0,
            body: Body::Directory { slots },
        },
    )?;
    let mut seats = Seq::new(heap);
    for _ in 0..callers {
        seats.push(Seat::new(Cred { uid: 0, gid: 0 }, 2))?;
    }
    let tree = Tree {
        nodes,
        last: 16,
        cap: 96,
    };
    Ok(Machine { tree, seats })
}

/// The creat of `/f` by the first caller.
fn creat(heap: Global, pick: Option<u16>, reply: Reply) -> Result<Entry, Fail> {
    Ok(Entry {
        caller: 0,
        ordinal: 1,
        call: Call::Creat {
            path: Path::from_vec(b"/f".to_vec(heap)?),
            mode: 0o644,
        },
        pick,
        moment: 1,
        reply,
    })
}

/// What the model says of one creat.
fn of_creat(heap: Global, pick: Option<u16>, reply: Reply) -> Result<Option<Cause>, Fail> {
    let mut history = Vec::new(heap);
    history.push(creat(heap, pick, reply)?)?;
    match first_difference(heap, &mut machine(heap, 1)?, &history)? {
        Some(Difference { at: _, cause }) => Ok(Some(cause)),
        None => Ok(None),
    }
}

#[test]
fn histories_are_compared_with_the_model(rt: HostRuntime) -> Result<(), Fail> {
    let heap = rt.alloc();
    let full = Reply::Refused(Errno::ENOSPC);
    assert_eq!(rt; of_creat(heap, Some(3), Reply::Num(3))?, None);
    assert_eq!(rt; of_creat(heap, Some(16), Reply::Num(3))?, None);
    assert_eq!(rt; of_creat(heap, None, Reply::Device)?, None);
    assert_eq!(rt;
        of_creat(heap, Some(3), Reply::Num(4))?,
        Some(Cause::Reply(Reply::Num(3)))
    );
    for pick in [1, 2, 17] {
        assert_eq!(rt;
            of_creat(heap, Some(pick), Reply::Num(3))?,
            Some(Cause::Pick),
            "{pick}"
        );
    }
    assert_eq!(rt; of_creat(heap, None, full)?, Some(Cause::Pick));
    assert_eq!(rt; of_creat(heap, Some(3), Reply::Device)?, Some(Cause::Pick));
    Ok(())
}

#[test]
fn the_place_of_the_first_difference_is_told(rt: HostRuntime) -> Result<(), Fail> {
    let heap = rt.alloc();
    let mut history = Vec::new(heap);
    history.push(creat(heap, Some(3), Reply::Num(3))?)?;
    history.push(creat(heap, None, Reply::Num(4))?)?;
    let mut other = creat(heap, None, Reply::Num(5))?;
    other.caller = 1;
    history.push(other)?;
    let found = first_difference(heap, &mut machine(heap, 1)?, &history)?;
    assert_eq!(rt;
        found,
        Some(Difference {
            at: 2,
            cause: Cause::Caller
        })
    );
    Ok(())
}

const JOB: &str =
    "callers = [\"a 0 0\", \"b 0 0\"]\ncalls = [\"a creat /f 644\", \"b creat /f 644\", \"a text 3 x = EIO\", \"b stat /f\"]\n";

/// The first line of a text of that job that the model does not answer so.
fn apart(heap: Global, text: &[u8]) -> Result<Option<usize>, Fail> {
    let job = job_of(heap, JOB.as_bytes())?;
    Ok(first_line_apart(heap, &mut machine(heap, 2)?, &job, text)?)
}

#[test]
fn printed_texts_are_compared_with_the_model(rt: HostRuntime) -> Result<(), Fail> {
    let heap = rt.alloc();
    let whole =
        b"1 b creat /f 644 = 3\n2 a creat /f 644 = 3\n3 a text 3 x = EIO = 7\n4 b stat /f = ino 9 mode 100644 nlink 1 uid 0 gid 0 size 7 atime 8 mtime 7 ctime 6\n5 b exit = 0\n6 a exit = 0\n";
    assert_eq!(rt; apart(heap, whole)?, None);
    let size =
        b"1 b creat /f 644 = 3\n2 a creat /f 644 = 3\n3 a text 3 x = EIO = 7\n4 b stat /f = ino 9 mode 100644 nlink 1 uid 0 gid 0 size 8 atime 8 mtime 7 ctime 6\n";
    assert_eq!(rt; apart(heap, size)?, Some(3));
    let ended =
        b"1 b creat /f 644 = EIO restart 1 2\n2 b stat /f = ENOENT\n3 a creat /f 644 = EIO device\n4 a text 3 x = EIO = FAILED 3\n5 a exit = 0\n6 b exit = 0\n";
    assert_eq!(rt; apart(heap, ended)?, None);
    let fewer = b"1 b creat /f 644 = 3\n";
    assert_eq!(rt; apart(heap, fewer)?, Some(1));
    let strange = b"1 c creat /f 644 = 3\n";
    assert_eq!(rt; apart(heap, strange)?, Some(0));
    Ok(())
}
