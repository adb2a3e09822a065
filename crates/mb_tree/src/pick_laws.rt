ghost use Rattle.mb_tree.specs.PickLaws.{PlanRepicked, RefusalRepicked, UnpickedFits, EffectUnpicked, AddsNone, AddsOne, MakesByNumber, RefusedAlike, RefusedUnpicked, RefusedWithAll, LawfulMade, LawfulUnmade, LawfulUnplanned, LawfulRefused};

/// The plan of a call for one number gives the plan for every pick.
pub fn plan_repicked()
    ensures { PlanRepicked }
{}

/// A call that is not planned for one number is planned for no pick.
pub fn refusal_repicked()
    ensures { RefusalRepicked }
{}

/// The operation of a call's plan fits without a demanded number too.
pub fn unpicked_fits()
    ensures { UnpickedFits }
{}

/// An operation that makes no inode looks at no number.
pub fn effect_unpicked()
    ensures { EffectUnpicked }
{}

/// An operation that makes no inode adds none.
pub fn adds_none()
    ensures { AddsNone }
{}

/// An operation that makes an inode adds that with the number.
pub fn adds_one()
    ensures { AddsOne }
{}

/// No inode is made without a number.
pub fn makes_by_number()
    ensures { MakesByNumber }
{}

/// An operation that is refused with one free number is refused with every other.
pub fn refused_alike()
    ensures { RefusedAlike }
{}

/// An operation that makes an inode and is refused with a number is refused without one.
pub fn refused_unpicked()
    ensures { RefusedUnpicked }
{}

/// A call whose operation is refused with one free number is refused with every other, and without one.
pub fn refused_with_all()
    ensures { RefusedWithAll }
{}

/// The free number with which a call makes an inode is its lawful pick.
pub fn lawful_made()
    ensures { LawfulMade }
{}

/// No pick is lawful for a call whose plan makes no inode.
pub fn lawful_unmade()
    ensures { LawfulUnmade }
{}

/// No pick is lawful for a call that is refused before its operation.
pub fn lawful_unplanned()
    ensures { LawfulUnplanned }
{}

/// No pick is lawful for a call whose operation is refused.
pub fn lawful_refused()
    ensures { LawfulRefused }
{}
