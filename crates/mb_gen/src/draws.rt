ghost use Rattle.std.specs.Prelude.{◌≡◌, ◌≤◌, ◌<◌};
ghost use Rattle.mb_gen.specs.Draws.{drawn};

use rand_core::utils::NextWord;

/// The next word modulo a bound.
pub(crate) fn draw<G: NextWord<u32>>(draws: &mut G, bound: u16) -> u16
    requires { 1 ≤ bound }
    ensures drawn { (result, draws.new) ≡ drawn G.step bound draws.old }
    ensures below { result < bound }
{
    (draws.next_word() % u32::from(bound)) as u16
}
