ghost use Rattle.std.specs.Prelude.{◌≡◌, ◌≤◌, ◌∷◌, [], ◌++◌, length, slice_get, OnOk, OnErr, option_copied};

use std::marker::Model;

/// Who a caller is: the user and the group that permissions are tested for.
#[derive(Clone, Copy, Debug, PartialEq, Eq, Drop)]
pub struct Cred {
    pub uid: u16,
    pub gid: u16,
}

/// The callers' credentials, at most eight; a caller's number is its place, from 0. A contract sees
/// the list.
#[derive(Debug, Drop)]
pub struct Creds {
    creds: Vec<Cred>,
}

impl Model for Creds {
    ghost use Rattle.std.specs.Prelude.{List, length, ◌≤◌};
    ghost use Rattle.mb_kinds.specs.declared.credentials.Cred.{Cred};

    ghost Value = { List Cred };

    ghost view = { λ a. a.creds.items };

    ghost invariant = { λ a. length a.creds.items ≤ 8 };
}

impl Creds {
    /// Takes over a list of at most eight; needs no memory.
    pub fn from_vec(creds: Vec<Cred>) -> Creds
        requires { length creds.items ≤ 8 }
        ensures { result ≡ creds.items }
    {
        Creds { creds }
    }

    /// The credentials, in the order of the callers' numbers.
    pub fn as_slice(&self) -> &[Cred]
        ensures creds { result.now ≡ self.now }
        ensures few { length self.now ≤ 8 }
    {
        &self.creds
    }
}
