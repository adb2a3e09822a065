ghost use Rattle.std.specs.Prelude.{◌≡◌, replicate};
ghost use Rattle.mb_iface.specs.OtherBlocks.{AreBlocks};

use std::marker::Model;

/// Single blocks, at most fifteen, each below 262,144: a contract sees fifteen numbers, of which 0 is no block.
#[derive(Clone, Copy, Debug, PartialEq, Drop)]
pub struct Others {
    blocks: [u32; 15],
}

impl Model for Others {
    ghost use Rattle.std.specs.Prelude.{List, ℕ};
    ghost use Rattle.mb_iface.specs.OtherBlocks.{AreBlocks};

    ghost Value = { List ℕ };

    ghost view = { λ o. o.blocks };

    ghost inverse = { λ blocks. record { blocks = blocks } };

    ghost invariant = { λ o. AreBlocks o.blocks };
}

impl Others {
    /// No block.
    pub fn none() -> Others
        ensures { result ≡ replicate 15 0 }
    {
        Others { blocks: [0; 15] }
    }

    /// Those of a list.
    pub fn of(blocks: [u32; 15]) -> Others
        requires { AreBlocks blocks }
        ensures { result ≡ blocks }
    {
        Others { blocks }
    }

    /// The blocks, and 0 in each place that has none.
    pub fn blocks(&self) -> &[u32; 15]
        ensures { result.now ≡ self.now }
    {
        &self.blocks
    }
}
