ghost use Rattle.std.specs.Prelude.{◌≡◌, ℕ, List, length, Option, IsSome};
ghost use Rattle.mb_kinds.specs.declared.Entry.{Entry};
ghost use Rattle.mb_kinds.specs.declared.Stand.{Stand};
ghost use Rattle.mb_turn.specs.Passes.{Begins};

/// A value that callers change one at a time, and what it stands for.
pub trait Booked {
    /// What the value began from. It is plain data, and no caller changes it.
    type Origin;

    // The entries of all callers, in order.
    ghost list: { Self → List Entry };

    // The state that is kept of each caller, where there is one.
    ghost stand: { Self → ℕ → Option Stand };

    ghost origin: { Self → Self.Origin };

    // What its type alone says of every value.
    ghost always: { Self → Type 0 };

    // A number that no caller raises.
    ghost tally: { Self → ℕ };

    /// How many entries there are.
    fn entries(&self) -> u64
        ensures { result ≡ length (list self.now) };

    /// How many calls of the caller have begun.
    fn begun(&self, caller: u8) -> u32
        requires { IsSome (stand self.now caller) }
        ensures { Begins (stand self.now caller) result };

    /// It does nothing, and shows what its type says of it.
    fn show(&self)
        ensures { always self.now };
}
