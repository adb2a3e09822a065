ghost use Rattle.std.specs.Prelude.{◌≡◌, ◌≤◌, drop, length};

use std::marker::Model;

/// A list of bytes, as a job's text has them. A contract sees the list.
#[derive(Debug, Drop)]
pub struct Text {
    bytes: Vec<u8>,
}

impl Model for Text {
    ghost use Rattle.std.specs.Prelude.{List, ℕ};

    ghost Value = { List ℕ };

    ghost view = { λ a. a.bytes.items };
}

impl Text {
    /// Takes over the bytes; needs no memory.
    pub fn from_vec(bytes: Vec<u8>) -> Text
        ensures { result ≡ bytes.items }
    {
        Text { bytes }
    }

    /// What stands behind the first two bytes, in the same memory.
    pub(crate) fn behind_two(self) -> Text
        requires { 2 ≤ length self }
        ensures { result ≡ drop 2 self }
    {
        let mut bytes = self.bytes;
        bytes.remove(0);
        bytes.remove(0);
        Text { bytes }
    }

    /// The bytes.
    pub fn as_slice(&self) -> &[u8]
        ensures { result.now ≡ self.now }
    {
        &self.bytes
    }
}

impl PartialEq for Text {
    ghost use Rattle.std.specs.Str.{bytes_eq};
    ghost use Rattle.std.proofs.Common.{rules};
    ghost use Rattle.std.specs.Cmp.Rules.{comparing};

    ghost eq = { λ a b. bytes_eq a b };

    ghost laws = { Prim.search (comparing, rules) };

    fn eq(&self, other: &Text) -> bool {
        self.as_slice() == other.as_slice()
    }
}
