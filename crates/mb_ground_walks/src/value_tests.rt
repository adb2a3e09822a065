use mb_kinds::{Call, Errno, How, Octets, Path, Reply, Seq};
use std::alloc::Global;
use std::process::Abort;
use std::test::Fail;

#[test]
fn an_error_prints_its_name(rt: HostRuntime) -> Result<(), Fail> {
    let text = format!(in rt.alloc(); "{}", Errno::ENOTDIR)?;
    assert_eq!(rt; text.as_str(), "ENOTDIR");
    Ok(())
}

fn opening(alloc: Global) -> Result<Call, Fail> {
    let path = Path::from_vec([b'/', b'a'].to_vec(alloc)?);
    Ok(Call::Open {
        path,
        how: How::Both,
    })
}

fn writing(alloc: Global) -> Result<Call, Fail> {
    let bytes = Octets::from_vec([1, 2].to_vec(alloc)?);
    Ok(Call::Write { fd: 3, bytes })
}

/// Whether a copy of a call is the call.
fn call_is_copied(alloc: Global, call: &Call) -> Result<bool, Fail> {
    let copy = call.copied(alloc)?;
    Ok(copy == *call)
}

fn calls_are_copied<R: Abort + AllocGlobal>(rt: &R, call: &Call, write: &Call) -> Result<(), Fail> {
    let is_same = call_is_copied(rt.alloc(), call)?;
    assert!(rt; is_same);
    let is_same = call_is_copied(rt.alloc(), write)?;
    assert!(rt; is_same);
    assert!(rt; *write != *call);
    Ok(())
}

fn other_is_copied<R: Abort + AllocGlobal>(rt: &R, call: &Call) -> Result<(), Fail> {
    let write = writing(rt.alloc())?;
    calls_are_copied(rt, call, &write)
}

#[test]
fn a_copy_of_a_call_is_the_call(rt: HostRuntime) -> Result<(), Fail> {
    let call = opening(rt.alloc())?;
    other_is_copied(&rt, &call)
}

/// Whether a copy of a reply is the reply.
fn reply_is_copied(alloc: Global, reply: &Reply) -> Result<bool, Fail> {
    let copy = reply.copied(alloc)?;
    Ok(copy == *reply)
}

fn bytes_are_copied(alloc: Global) -> Result<bool, Fail> {
    let got = Reply::Got(Octets::from_vec([7, 0, 9].to_vec(alloc)?));
    reply_is_copied(alloc, &got)
}

fn restart_is_copied<R: Abort + AllocGlobal>(
    rt: &R,
    restart: &Reply,
    other: &Reply,
) -> Result<(), Fail> {
    let is_same = reply_is_copied(rt.alloc(), restart)?;
    assert!(rt; is_same);
    assert!(rt; *restart != *other);
    Ok(())
}

#[test]
fn a_copy_of_a_reply_is_the_reply(rt: HostRuntime) -> Result<(), Fail> {
    let is_same = bytes_are_copied(rt.alloc())?;
    assert!(rt; is_same);
    let restart = Reply::Restart {
        first: 2,
        second: 5,
    };
    let other = Reply::Restart {
        first: 5,
        second: 2,
    };
    restart_is_copied(&rt, &restart, &other)
}

/// Whether a reply is there and is the error.
fn is_refused(reply: Option<&Reply>, wanted: Errno) -> bool {
    match reply {
        Some(reply) => *reply == Reply::Refused(wanted),
        None => false,
    }
}

fn keeps_order(rt: &impl Abort, replies: &mut Seq<Reply>, other: &mut Reply) -> Result<(), Fail> {
    replies.push(Reply::Num(4))?;
    replies.push(Reply::Device)?;
    assert_eq!(rt; replies.len(), 2);
    replies.swap(1, other);
    assert!(rt; *other == Reply::Device);
    assert!(rt; is_refused(replies.get(1), Errno::EBADF));
    Ok(())
}

#[test]
fn a_list_keeps_its_elements_in_order(rt: HostRuntime) -> Result<(), Fail> {
    let mut replies: Seq<Reply> = Seq::new(rt.alloc());
    let mut other = Reply::Refused(Errno::EBADF);
    keeps_order(&rt, &mut replies, &mut other)
}
