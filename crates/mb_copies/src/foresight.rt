ghost use Rattle.std.specs.Prelude.{◌<◌, ◌≤◌, IfSome, length};

use mb_kinds::{Call, Path};
use std::alloc::Global;
use std::cell::Cell;
use std::marker::Model;

/// How many kinds of calls are told apart.
const KINDS: usize = 64;

/// How many bytes of a directory's path tell it from others.
const PARENT: usize = 16;

/// The blocks that the last call of a kind looked at, in the order in which it gathered them: of the first 32 that it
/// gathered.
#[derive(Clone, Copy, Drop)]
struct Looked {
    kind: u32,
    blocks: [u32; 32],
    count: usize,
    /// By a bit for each place, whether the call of that kind before it looked at the block, too.
    twice: u32,
}

impl Looked {
    /// A call that looked at no block.
    fn none(kind: u32) -> Looked {
        Looked {
            kind,
            blocks: [0; 32],
            count: 0,
            twice: 0,
        }
    }

    /// Whether the call looked at a block, which may well be in that place.
    fn has(&self, block: u32, likely: usize) -> bool {
        if likely < self.count.min(32) && self.blocks[likely] == block {
            return true;
        }
        for at in 0..self.count.min(32) {
            if self.blocks[at] == block {
                return true;
            }
        }
        false
    }

    /// One block more, where there is a place for it.
    fn add(&mut self, block: u32, again: bool) {
        if self.count < 32 {
            self.blocks[self.count] = block;
            self.twice |= u32::from(again) << self.count;
            self.count += 1;
        }
    }

    /// The first place from that one on whose block two calls in a row looked at.
    fn twice_from(&self, first: usize) -> Option<usize>
        ensures { IfSome result (λ place. place < 32) }
    {
        for at in first..self.count.min(32) {
            if self.twice >> at & 1 == 1 {
                return Some(at);
            }
        }
        None
    }
}

/// Goes on with a hash (FNV-1a).
fn mixed(hash: u32, number: u32) -> u32 {
    (hash ^ number).wrapping_mul(16_777_619)
}

/// How long the directory's part of a path is: up to the last slash.
fn parent_end(bytes: &[u8]) -> usize
    ensures { result ≤ length bytes.now }
{
    for behind in 0..bytes.len() {
        let at = bytes.len() - 1 - behind;
        if bytes[at] == b'/' {
            return at;
        }
    }
    0
}

/// Goes on with the hash of the directory in which a path's last component stands: of the last bytes before it.
fn mixed_parent(hash: u32, path: &Path) -> u32 {
    let bytes = path.as_slice();
    let end = parent_end(bytes);
    let mut mixes = hash;
    for byte in &bytes[end.saturating_sub(PARENT)..end] {
        mixes = mixed(mixes, u32::from(*byte));
    }
    mixes
}

/// The number of a call's kind: the same call with the same descriptor, or with paths in the same directories. Two kinds
/// may have one number.
fn kind_of(call: &Call) -> u32 {
    match call {
        Call::Open { path, .. } => mixed_parent(1, path),
        Call::Creat { path, .. } => mixed_parent(2, path),
        Call::Close { fd } => mixed(3, u32::from(*fd)),
        Call::Read { fd, .. } => mixed(4, u32::from(*fd)),
        Call::Write { fd, .. } => mixed(5, u32::from(*fd)),
        Call::Lseek { fd, .. } => mixed(6, u32::from(*fd)),
        Call::Dup { fd } => mixed(7, u32::from(*fd)),
        Call::Link { from, to } => mixed_parent(mixed_parent(8, from), to),
        Call::Unlink { path } => mixed_parent(9, path),
        Call::Mkdir { path, .. } => mixed_parent(10, path),
        Call::Rmdir { path } => mixed_parent(11, path),
        Call::Chdir { path } => mixed_parent(12, path),
        Call::Stat { path } => mixed_parent(13, path),
        Call::Fstat { fd } => mixed(14, u32::from(*fd)),
        Call::Chmod { path, .. } => mixed_parent(15, path),
        Call::Chown { path, .. } => mixed_parent(16, path),
        Call::Utime { path, .. } => mixed_parent(17, path),
        Call::Access { path, .. } => mixed_parent(18, path),
        Call::Umask { .. } => 19,
        Call::Sync => 20,
        Call::Exit => 21,
    }
}

/// Which blocks calls of each kind looked at, so that a call asks at once for those that the calls before it came to
/// want. All of it is a guess, and a contract sees nothing of it.
#[derive(Drop)]
pub struct Foresight {
    /// The last call of each kind, in the place that the kind's number has modulo 64; empty until there was memory.
    calls: Vec<Looked>,
    /// The kind of the call that gathers blocks, where one does.
    kind: Option<u32>,
    /// How many places of the last call of that kind were passed.
    passed: usize,
    /// By a bit for each, which of the first 32 blocks that it gathered the call looked at.
    seen: Cell<u32>,
}

impl Model for Foresight {
    ghost Value = { Unit {0} };

    ghost view = { λ _. tt };
}

impl Foresight {
    /// Nothing is remembered; needs no memory.
    pub fn new(alloc: Global) -> Foresight {
        Foresight {
            calls: Vec::new(alloc),
            kind: None,
            passed: 0,
            seen: Cell::new(0),
        }
    }

    /// A call begins to gather blocks. Where there is no memory for a place of its kind, nothing is foreseen for it.
    pub fn begin(&mut self, call: &Call) {
        let kind = kind_of(call);
        self.kind = if self.make_place(kind) {
            Some(kind)
        } else {
            None
        };
        self.passed = 0;
        self.seen.set(0);
    }

    /// Makes a place for a kind, where it has none; `false` without memory.
    fn make_place(&mut self, kind: u32) -> bool {
        let place = kind as usize % KINDS;
        'kinds: while self.calls.len() <= place {
            if self.calls.push(Looked::none(0)).is_err() {
                return false;
            }
        }
        true
    }

    /// The call looked at the block that it gathered as the `place`-th one, from 0.
    pub fn look(&self, place: usize) {
        if place < 32 {
            self.seen.set(self.seen.get() | 1 << place);
        }
    }

    /// The next block that the last two calls of this kind looked at.
    pub fn next(&mut self) -> Option<u32> {
        let kind = self.kind?;
        let before = self.calls.get(kind as usize % KINDS)?;
        if before.kind != kind {
            return None;
        }
        let place = before.twice_from(self.passed)?;
        self.passed = place + 1;
        Some(before.blocks[place])
    }

    /// The call, which gathered these blocks, gathers no more; needs no memory.
    pub fn end(&mut self, blocks: &[u32]) {
        let Some(kind) = self.kind.take() else {
            return;
        };
        let place = kind as usize % KINDS;
        let Some(before) = self.calls.get(place).copied() else {
            return;
        };
        let seen = self.seen.get();
        let mut looked = Looked::none(kind);
        for at in 0..blocks.len().min(32) {
            if seen >> at & 1 == 1 {
                let likely = looked.count;
                let again = before.kind == kind && before.has(blocks[at], likely);
                looked.add(blocks[at], again);
            }
        }
        self.calls[place] = looked;
    }
}
