ghost use Rattle.std.specs.Prelude.{◌≤◌, length};
ghost use Rattle.mb_kinds.specs.Texts.{IsPath};

use mb_kinds::{Call, Cred, Octets, Path, Reply, Seq};
use mb_tree::{Body, Machine, Map, Node, PlainSlot, Seat, Tree};
use std::alloc::{AllocError, Global};
use std::process::Abort;
use std::test::Fail;

/// A machine on its way through calls, on a fresh volume of 100 blocks and 16 inodes, whose files can hold 96 blocks.
#[derive(Drop)]
pub struct Walk {
    pub heap: Global,
    pub machine: Machine,
    moment: u32,
}

pub const SUPER: Cred = Cred { uid: 0, gid: 0 };

const DOT: [u8; 14] = [46, 0, 0, 0, 0, 0, 0, 0, 0, 0, 0, 0, 0, 0];

const DOT_DOT: [u8; 14] = [46, 46, 0, 0, 0, 0, 0, 0, 0, 0, 0, 0, 0, 0];

/// A node with these kind and permission bits and this count of links, of uid 0 and moment 0.
pub fn node(mode: u16, nlink: u16, body: Body) -> Node {
    Node {
        mode,
        nlink,
        uid: 0,
        gid: 0,
        atime: 0,
        mtime: 0,
        ctime: 0,
        body,
    }
}

impl Walk {
    /// The walk begins with these callers.
    pub fn fresh(alloc: Global, callers: &[Cred]) -> Result<Walk, Fail> {
        let mut slots = Seq::new(alloc);
        slots.push(PlainSlot { ino: 2, name: DOT })?;
        slots.push(PlainSlot {
            ino: 2,
            name: DOT_DOT,
        })?;
        let mut nodes = Map::new(alloc);
        nodes.insert(2, node(0o040777, 2, Body::Directory { slots }))?;
        let mut seats = Seq::new(alloc);
        for cred in callers {
            seats.push(Seat::new(*cred, 2))?;
        }
        let tree = Tree {
            nodes,
            last: 16,
            cap: 96,
        };
        Ok(Walk {
            heap: alloc,
            machine: Machine { tree, seats },
            moment: 0,
        })
    }

    /// The reply of a caller's next call, `None` where memory is wanting or there is no such caller.
    pub fn reply(
        &mut self,
        caller: u8,
        call: Result<Call, AllocError>,
        pick: Option<u16>,
    ) -> Option<Reply> {
        let Ok(call) = call else {
            return None;
        };
        if usize::from(caller) >= self.machine.seats.len() {
            return None;
        }
        self.moment = self.moment.saturating_add(1);
        self.machine
            .step(self.heap, caller, &call, self.moment, pick)
            .ok()
    }

    /// A caller's next call is answered so.
    pub fn expect<R: Abort>(
        &mut self,
        rt: &R,
        caller: u8,
        call: Result<Call, AllocError>,
        pick: Option<u16>,
        want: Reply,
    ) {
        let reply = self.reply(caller, call, pick);
        assert_eq!(rt; reply, Some(want), "at call {}", self.moment);
    }

    /// The path leads to the inode with this number.
    pub fn expect_ino<R: Abort>(&mut self, rt: &R, text: &[u8], want: u16)
        requires { IsPath text.now }
    {
        let call = match path(self.heap, text) {
            Ok(path) => Ok(Call::Stat { path }),
            Err(error) => Err(error),
        };
        match self.reply(0, call, None) {
            Some(Reply::Info(stat)) => assert_eq!(rt; stat.ino, want, "at call {}", self.moment),
            _ => assert!(rt; false, "no inode at call {}", self.moment),
        }
    }

    /// The first caller's next call reads these bytes.
    pub fn expect_bytes<R: Abort>(&mut self, rt: &R, fd: u16, count: u16, want: &[u8]) {
        match self.reply(0, Ok(Call::Read { fd, count }), None) {
            Some(Reply::Got(bytes)) => assert_eq!(rt;
                bytes.as_slice(),
                want,
                "at call {}",
                self.moment
            ),
            _ => assert!(rt; false, "no bytes at call {}", self.moment),
        }
    }

    /// How many blocks the tree holds.
    pub fn held(&self) -> Result<u128, AllocError> {
        let mut held: u128 = 0;
        for ino in 0..17 {
            if let Some(node) = self.machine.tree.nodes.get(ino) {
                held = held.saturating_add(node.body.cost(self.heap)?);
            }
        }
        Ok(held)
    }
}

pub fn path(alloc: Global, text: &[u8]) -> Result<Path, AllocError>
    requires { IsPath text.now }
{
    Ok(Path::from_vec(text.to_vec(alloc)?))
}

pub fn creat(alloc: Global, text: &[u8], mode: u16) -> Result<Call, AllocError>
    requires { IsPath text.now }
{
    Ok(Call::Creat {
        path: path(alloc, text)?,
        mode,
    })
}

pub fn write(alloc: Global, fd: u16, text: &[u8]) -> Result<Call, AllocError>
    requires { length text.now ≤ 65535 }
{
    Ok(Call::Write {
        fd,
        bytes: Octets::from_vec(text.to_vec(alloc)?),
    })
}
