ghost use Rattle.std.specs.Prelude.{◌≡◌};

use mb_core_events::Core;
use mb_edge::Disk;
use mb_fsops::V7;

/// What the program held at its end.
pub enum Held<D: Disk> {
    /// The disk, where no core was begun over it.
    Disk(D),
    /// The core that the run drove, as the end of the run left it.
    Core(Core<V7, D>),
}

impl<D: Disk> Held<D> {
    ghost use Rattle.mb_program.specs.Held.{held_disk};

    /// The disk that is held.
    pub fn into_disk(self) -> D
        ensures { result ≡ held_disk self }
    {
        match self {
            Held::Disk(disk) => disk,
            Held::Core(core) => core.into_disk(),
        }
    }
}

/// The end of a run: the status of the program, and what is left.
pub struct Finish<D: Disk> {
    pub status: u8,
    pub held: Held<D>,
}
