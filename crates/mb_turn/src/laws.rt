ghost use Rattle.mb_turn.specs.Laws.{OthersCameBetween, OthersCameComposes, OwnGrows, OthersStay, FollowsComposes};

use crate::booked::Booked;

/// What comes between two looks of a caller is of other callers, and so it stays over more looks.
#[tactic(auto, using(crate::proofs::Composing::others_came_between, crate::proofs::Composing::others_came_composes))]
pub fn others_came()
    ensures between { OthersCameBetween }
    ensures composes { OthersCameComposes }
{}

/// What a caller adds stands behind its older entries, and changes nothing of what is another's.
pub fn own_entries()
    ensures grow { OwnGrows }
    ensures stay { OthersStay }
{}

/// What follows what follows a value follows that value.
pub fn follows_composes<T: Booked>()
    ensures { FollowsComposes T.list T.stand T.origin T.tally }
{}
