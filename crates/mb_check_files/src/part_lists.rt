ghost use Rattle.std.specs.Prelude.{ℕ, List, true, ◌≡◌, ◌<◌, ◌≤◌, ◌+◌, length, OnOk};
ghost use Rattle.mb_tree.specs.Blocks.{part_address};
ghost use Rattle.mb_tree.specs.Cost.{most_parts};
ghost use Rattle.mb_rules.specs.Files.{are_parts, size_at};
ghost use Rattle.mb_check_files.specs.PartLists.{Notes, Extends, ListsParts, run_passed};

use mb_kinds::NoMemory;
use std::alloc::Global;

/// How far the parts of a file stand one after another.
#[derive(Clone, Copy, Debug, PartialEq, Drop)]
pub enum Run {
    /// All parts so far are there.
    Whole,
    /// From some part on all parts so far are missing.
    Ended,
    /// A part is there behind one that is missing, or the parts are not listed.
    Torn,
}

impl Run {
    /// Where the next part is missing.
    fn passed(self) -> Run
        ensures { result ≡ run_passed self }
    {
        match self {
            Run::Whole => Run::Ended,
            Run::Ended => Run::Ended,
            Run::Torn => Run::Torn,
        }
    }
}

/// The addresses of the parts of directories, one directory after another, each from part 0 on without a gap.
#[derive(Drop)]
pub struct PartList {
    pub addresses: Vec<u32>,
    pub run: Run,
}

impl PartList {
    /// How many addresses are listed.
    pub fn listed(&self) -> usize
        ensures { result ≡ length self.now.addresses.items }
    {
        self.addresses.as_slice().len()
    }

    /// The place at which the next address is listed.
    pub fn place(&self) -> u32
        requires { length self.now.addresses.items ≤ 262144 }
        ensures { result ≡ length self.now.addresses.items }
    {
        self.listed() as u32
    }

    /// Before part 0 of a file, the parts of which are listed where it is a directory.
    pub fn begin(&mut self, directory: bool)
        ensures begins { directory ≡ true → (address : ℕ → ℕ) → ListsParts address (length self.new.addresses.items) 0 self.new }
        ensures kept { self.new.addresses ≡ self.old.addresses }
    {
        self.run = if directory { Run::Whole } else { Run::Torn };
    }

    /// Whether the parts of a directory of that size are those below the size, where all its parts were gone through and
    /// the list of them begins at a place (rule 8).
    pub fn covers(&self, from: usize, size: u32) -> bool
        requires { from ≤ length self.now.addresses.items }
        ensures { (blocks : ℕ → List ℕ) (ino : ℕ)
            → ListsParts (part_address blocks ino) from most_parts self.now
            → length self.now.addresses.items < from + most_parts → size_at blocks ino ≡ size
            → result ≡ are_parts blocks ino }
    {
        if let Run::Torn = self.run {
            return false;
        }
        self.listed() - from == (size as usize + 511) / 512
    }

    /// The next parts, at least one, are missing.
    pub fn pass(&mut self)
        ensures notes { (below : ℕ → ℕ) (n : ℕ) → 0 < n → ((k : ℕ) → k < n → below k ≡ 0) → Notes self.old self.new below n }
        ensures kept { self.new.addresses.items ≡ self.old.addresses.items }
    {
        self.run = self.run.passed();
    }

    /// The next part is at that address, which is not 0.
    pub fn add(&mut self, address: u32) -> Result<(), NoMemory>
        requires { 0 < address }
        ensures notes { OnOk result (Notes self.old self.new (λ _. address) 1) }
        ensures few { OnOk result (length self.new.addresses.items ≤ length self.old.addresses.items + 1) }
        ensures kept { OnOk result (Extends self.old.addresses.items self.new.addresses.items) }
    {
        match self.run {
            Run::Whole => self.addresses.push(address)?,
            Run::Ended => self.run = Run::Torn,
            Run::Torn => {}
        }
        Ok(())
    }
}
