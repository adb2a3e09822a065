ghost use Rattle.std.specs.Prelude.{◌≤◌, ℕ, List, length, ◌≡◌, ◌+◌, ◌∷◌, [], OnOk};
ghost use Rattle.mb_rules.specs.Items.{Holds, Held};
ghost use Rattle.mb_rules.specs.FreeChain.{is_open};
ghost use Rattle.mb_check_files.specs.Passes.{Stands, AreBounds, Walks, count_met};

use crate::bounds::Bounds;
use mb_rules::Finding;

/// An address that stands in the block `holder`: its range by `rule`, then that it was not met before.
pub fn claim(
    met: &mut [bool],
    bounds: &Bounds,
    holder: u32,
    rule: u8,
    address: u32,
) -> Result<(), Finding>
    requires { bounds.now.high ≤ length met.old }
    ensures walk { (blocks : ℕ → List ℕ) (list : List ℕ) → AreBounds blocks bounds.now → Stands met.old list
        → Walks result met.new list (Holds (is_open blocks address) holder rule ∷ Held address ∷ []) }
    ensures count { OnOk result (count_met met.new ≡ count_met met.old + 1) }
{
    if address < bounds.low {
        return Err(Finding {
            block: holder,
            rule,
        });
    }
    if bounds.high <= address {
        return Err(Finding {
            block: holder,
            rule,
        });
    }
    let at = address as usize;
    if met[at] {
        return Err(Finding {
            block: address,
            rule: 7,
        });
    }
    met[at] = true;
    Ok(())
}

/// How many blocks were met.
pub fn met_count(met: &[bool]) -> u32
    requires { length met.now ≤ 262144 }
    ensures { result ≡ count_met met.now }
{
    met.iter().filter(|flag| **flag).count() as u32
}
