ghost use Rattle.std.specs.Prelude.{◌≡◌, ℕ, List, Some, None, IfSome, IfNone, option_copied};
ghost use Rattle.mb_tree.specs.Views.{over, IsPart};
ghost use Rattle.mb_kinds.specs.Changed.{changed, shown_over};

use crate::change_lists::Changes;
use crate::views::View;

/// A view with changes over it, which is a view again: an operation of many writes works on changes
/// of its own over this one.
#[derive(Drop)]
pub struct Over<'a, V> {
    view: &'a V,
    changes: &'a Changes,
}

impl<'a, V: View> Over<'a, V> {
    /// The changes over the view.
    pub fn new(view: &'a V, changes: &'a Changes) -> Over<'a, V>
        ensures { ⟦<Over<'a, V> as View>⟧.shown result ≡ shown_over (V.shown view.now) changes.now }
    {
        Over { view, changes }
    }
}

impl<V: View> View for Over<'_, V> {
    ghost use Rattle.mb_kinds.specs.Changed.{shown_over};

    ghost shown = { λ o. shown_over (V.shown o.view.now) o.changes.now };

    fn get(&self, block: u32) -> Option<&[u8; 512]> {
        look(self.view, self.changes, block)
    }
}

/// The bytes of a block under the changes.
fn look<'a, V: View>(view: &'a V, changes: &'a Changes, block: u32) -> Option<&'a [u8; 512]>
    ensures { option_copied result ≡ shown_over (V.shown view.now) changes.now block }
{
    match changes.get(block) {
        Some(bytes) => Some(bytes),
        None => view.get(block),
    }
}

/// The bytes of a block: the changed ones where it is changed, else those of the view. `None` exactly
/// where it is neither changed nor in the view.
#[tactic(auto, using(crate::proofs::ChangedBlocks::found_under))]
pub fn seen<'a, V: View>(view: &'a V, changes: &'a Changes, block: u32) -> Option<&'a [u8; 512]>
    ensures found { IfSome result (λ bytes. (blocks : ℕ → List ℕ) → IsPart (V.shown view.now) blocks
        → over blocks (changed changes.now) block ≡ bytes.now) }
    ensures there { IfSome result (λ bytes. shown_over (V.shown view.now) changes.now block ≡ Some bytes.now) }
    ensures missing { IfNone result (shown_over (V.shown view.now) changes.now block ≡ None) }
{
    look(view, changes, block)
}
