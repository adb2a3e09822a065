ghost use Rattle.std.specs.Prelude.{◌≡◌, [], IfOk};
ghost use Rattle.mb_kinds.specs.Texts.{AreOctets, IsPath};

use std::alloc::{AllocError, Global};
use std::marker::Model;
use std::mem;

/// A directory entry's name: 14 bytes, padded with 0 (V7 dir(5)).
pub type Name = [u8; 14];

/// A copy of bytes in the room of a list, of which an empty one is left. The only error is want of memory.
fn copy_into(alloc: Global, room: &mut Vec<u8>, bytes: &[u8]) -> Result<Vec<u8>, AllocError>
    ensures copy { IfOk result (λ copy. copy.items ≡ bytes.now) }
    ensures left { room.new.items ≡ [] }
{
    let mut copy = mem::replace(room, Vec::new(alloc));
    copy.clear();
    copy.reserve_exact(bytes.len())?;
    copy.extend_from_slice(bytes)?;
    Ok(copy)
}

/// The bytes of one read or write, at most 65,535 of them. A contract sees the list.
#[derive(Debug, Drop)]
pub struct Octets {
    bytes: Vec<u8>,
}

impl Model for Octets {
    ghost use Rattle.std.specs.Prelude.{List, ℕ};
    ghost use Rattle.mb_kinds.specs.Texts.{AreOctets};

    ghost Value = { List ℕ };

    ghost view = { λ a. a.bytes.items };

    ghost invariant = { λ a. AreOctets a.bytes.items };
}

impl Octets {
    /// Takes over the bytes of a list of at most 65,535; needs no memory.
    pub fn from_vec(bytes: Vec<u8>) -> Octets
        requires { AreOctets bytes.items }
        ensures { result ≡ bytes.items }
    {
        Octets { bytes }
    }

    /// Gives the bytes back; needs no memory.
    pub fn into_vec(self) -> Vec<u8>
        ensures bytes { result.items ≡ self }
        ensures bound { AreOctets self }
    {
        let Octets { bytes } = self;
        bytes
    }

    /// The bytes.
    pub fn as_slice(&self) -> &[u8]
        ensures bytes { result.now ≡ self.now }
        ensures bound { AreOctets self.now }
    {
        &self.bytes
    }

    /// A copy. The only error is want of memory.
    pub fn copied(&self, alloc: Global) -> Result<Octets, AllocError>
        ensures { IfOk result (λ copy. copy ≡ self.now) }
    {
        let bytes = Vec::from_slice(alloc, &self.bytes)?;
        Ok(Octets { bytes })
    }

    /// A copy in the room of a list, of which an empty one is left. The only error is want of memory.
    pub fn copied_into(&self, alloc: Global, room: &mut Vec<u8>) -> Result<Octets, AllocError>
        ensures copy { IfOk result (λ copy. copy ≡ self.now) }
        ensures left { room.new.items ≡ [] }
    {
        Ok(Octets {
            bytes: copy_into(alloc, room, &self.bytes)?,
        })
    }
}

impl PartialEq for Octets {
    ghost use Rattle.std.specs.Str.{bytes_eq};
    ghost use Rattle.std.proofs.Common.{rules};
    ghost use Rattle.std.specs.Cmp.Rules.{comparing};

    ghost eq = { λ a b. bytes_eq a b };

    ghost laws = { Prim.search (comparing, rules) };

    fn eq(&self, other: &Octets) -> bool {
        self.as_slice() == other.as_slice()
    }
}

/// A path: at most 255 bytes, none of them 0. A contract sees the list.
#[derive(Debug, Drop)]
pub struct Path {
    bytes: Vec<u8>,
}

impl Model for Path {
    ghost use Rattle.std.specs.Prelude.{List, ℕ};
    ghost use Rattle.mb_kinds.specs.Texts.{IsPath};

    ghost Value = { List ℕ };

    ghost view = { λ a. a.bytes.items };

    ghost invariant = { λ a. IsPath a.bytes.items };
}

impl Path {
    /// Takes over the bytes of a list that is a path; needs no memory.
    pub fn from_vec(bytes: Vec<u8>) -> Path
        requires { IsPath bytes.items }
        ensures { result ≡ bytes.items }
    {
        Path { bytes }
    }

    /// Gives the bytes back; needs no memory.
    pub fn into_vec(self) -> Vec<u8>
        ensures bytes { result.items ≡ self }
        ensures path { IsPath self }
    {
        let Path { bytes } = self;
        bytes
    }

    /// The bytes.
    pub fn as_slice(&self) -> &[u8]
        ensures bytes { result.now ≡ self.now }
        ensures path { IsPath self.now }
    {
        &self.bytes
    }

    /// A copy. The only error is want of memory.
    pub fn copied(&self, alloc: Global) -> Result<Path, AllocError>
        ensures { IfOk result (λ copy. copy ≡ self.now) }
    {
        let bytes = Vec::from_slice(alloc, &self.bytes)?;
        Ok(Path { bytes })
    }

    /// A copy in the room of a list, of which an empty one is left. The only error is want of memory.
    pub fn copied_into(&self, alloc: Global, room: &mut Vec<u8>) -> Result<Path, AllocError>
        ensures copy { IfOk result (λ copy. copy ≡ self.now) }
        ensures left { room.new.items ≡ [] }
    {
        Ok(Path {
            bytes: copy_into(alloc, room, &self.bytes)?,
        })
    }
}

impl PartialEq for Path {
    ghost use Rattle.std.specs.Str.{bytes_eq};
    ghost use Rattle.std.proofs.Common.{rules};
    ghost use Rattle.std.specs.Cmp.Rules.{comparing};

    ghost eq = { λ a b. bytes_eq a b };

    ghost laws = { Prim.search (comparing, rules) };

    fn eq(&self, other: &Path) -> bool {
        self.as_slice() == other.as_slice()
    }
}
