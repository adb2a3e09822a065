/// Blocks by number, as far as somebody has gathered them. Contracts see of a view `shown`: the bytes
/// of each block that it has.
pub trait View {
    ghost use Rattle.std.specs.Prelude.{◌≡◌, ℕ, List, Option, option_copied};

    ghost shown: { Self → ℕ → Option (List ℕ) };

    /// The bytes of a block; `None` exactly where the view lacks it.
    fn get(&self, block: u32) -> Option<&[u8; 512]>
        ensures { option_copied result ≡ shown self.now block };
}
