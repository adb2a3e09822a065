ghost use Rattle.std.specs.Prelude.{ℕ, List, ◌≡◌, ◌||◌, not, false, bytes_eq, IfOk, OnOk, length};
ghost use Rattle.mb_check.specs.NameSets.{has_name};

use mb_kinds::{Name, NoMemory};
use std::alloc::Global;
use std::collections::BTreeSet;

/// The names of the used slots of one directory so far.
#[derive(Drop)]
pub struct NameSet {
    names: BTreeSet<Name>,
}

impl NameSet {
    /// No name.
    pub fn new(alloc: Global) -> NameSet
        ensures { (name : List ℕ) → has_name result name ≡ false }
    {
        NameSet {
            names: BTreeSet::new(alloc),
        }
    }

    /// No name again, before the next directory.
    pub fn clear(&mut self)
        ensures { (name : List ℕ) → has_name self.new name ≡ false }
    {
        self.names.clear();
    }

    /// Adds a name, and says whether it was new.
    pub fn add(&mut self, name: &Name) -> Result<bool, NoMemory>
        ensures added { IfOk result (λ added. added ≡ not (has_name self.old name.now)) }
        ensures names { OnOk result ((other : List ℕ)
            → has_name self.new other ≡ (bytes_eq name.now other || has_name self.old other)) }
    {
        Ok(self.names.insert(*name)?)
    }
}
