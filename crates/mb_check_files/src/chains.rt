ghost use Rattle.std.specs.Prelude.{◌≤◌, ◌+◌, ◌*◌, ◌-◌, ℕ, List, length, ◌≡◌, [], IfSome, IfOk};
ghost use Rattle.mb_word.specs.Numbers.{word_at, long_at};
ghost use Rattle.mb_rules.specs.Items.{each_from};
ghost use Rattle.mb_rules.specs.FreeChain.{free_items, chain_items};
ghost use Rattle.mb_check_files.specs.Passes.{Stands, AreBounds, Walks, Passes, Lists, listed_at, DeviceCause};

use crate::bounds::Bounds;
use crate::met::claim;
use crate::stops::Stop;
use mb_edge::{Disk, Failed};
use mb_rules::Finding;
use mb_word::{long_at, word_at};

/// The places 1, 2, .. of a list below its count, which stands at `base`.
fn upper(
    met: &mut [bool],
    bounds: &Bounds,
    bytes: &[u8; 512],
    base: usize,
    holder: u32,
) -> Result<(), Finding>
    requires high { bounds.now.high ≤ length met.old }
    requires base { base ≤ 6 }
    requires few { word_at bytes.now base ≤ 50 }
    ensures { (blocks : ℕ → List ℕ) (list : List ℕ) → AreBounds blocks bounds.now → Stands met.old list
        → Walks result met.new list (each_from (λ place. free_items blocks holder (long_at bytes.now (base + 2 + 4 * place))) 1 (word_at bytes.now base - 1)) }
{
    let count = usize::from(word_at(bytes, base));
    for place in 1..count {
        match claim(met, bounds, holder, 4, long_at(bytes, base + 2 + 4 * place)) {
            Ok(()) => {}
            Err(broken) => return Err(broken),
        }
    }
    Ok(())
}

/// One list of the chain; the number of the block with the next one, whose bytes are then in `bytes`, or nothing where
/// the chain ends.
fn list<D: Disk>(
    disk: &mut D,
    met: &mut [bool],
    bounds: &Bounds,
    bytes: &mut [u8; 512],
    base: usize,
    holder: u32,
) -> Result<Option<u32>, Stop>
    requires high { bounds.now.high ≤ length met.old }
    requires base { base ≤ 6 }
    requires few { word_at bytes.old base ≤ 50 }
    ensures list { IfSome (D.told disk.old) (λ image. (list : List ℕ) → AreBounds image.at bounds.now
        → Stands met.old list → Lists result met.new bytes.new image.at holder (listed_at bytes.old base) list) }
    ensures few { IfOk result (λ next. IfSome next (λ _. word_at bytes.new 0 ≤ 50)) }
    ensures told { D.told disk.new ≡ D.told disk.old }
    ensures cause { DeviceCause (D.faults disk.old) (D.faults disk.new) result }
{
    match upper(met, bounds, bytes, base, holder) {
        Ok(()) => {}
        Err(broken) => return Err(Stop::Broken(broken)),
    }
    if word_at(bytes, base) == 0 {
        return Ok(None);
    }
    let next = long_at(bytes, base + 2);
    if next == 0 {
        return Ok(None);
    }
    match claim(met, bounds, holder, 4, next) {
        Ok(()) => {}
        Err(broken) => return Err(Stop::Broken(broken)),
    }
    match disk.read(next, bytes) {
        Ok(()) => {}
        Err(Failed) => return Err(Stop::Device),
    }
    if word_at(bytes, 0) > 50 {
        return Err(Stop::Broken(Finding {
            block: next,
            rule: 3,
        }));
    }
    Ok(Some(next))
}

/// The lists of the free chain, that of the super-block first.
pub fn chain<D: Disk>(
    disk: &mut D,
    met: &mut [bool],
    bounds: &Bounds,
    first: &[u8; 512],
) -> Result<(), Stop>
    requires high { bounds.now.high ≤ length met.old }
    requires small { bounds.now.high ≤ 262144 }
    requires few { word_at first.now 6 ≤ 50 }
    ensures chain { IfSome (D.told disk.old) (λ image. first.now ≡ image.at 1 → AreBounds image.at bounds.now
        → Stands met.old [] → Passes result met.new [] (chain_items image.at)) }
    ensures told { D.told disk.new ≡ D.told disk.old }
    ensures cause { DeviceCause (D.faults disk.old) (D.faults disk.new) result }
{
    let mut bytes = *first;
    let mut base = 6;
    let mut holder = 1;
    for _ in 0..bounds.high + 1 {
        match list(disk, met, bounds, &mut bytes, base, holder) {
            Ok(None) => return Ok(()),
            Ok(Some(next)) => {
                holder = next;
                base = 0;
            }
            Err(stop) => return Err(stop),
        }
    }
    Ok(())
}
