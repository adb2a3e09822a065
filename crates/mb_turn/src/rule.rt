ghost use Rattle.std.specs.Prelude.{Option};
ghost use Rattle.mb_turn.specs.Rule.{Kept, first_view};
ghost use Rattle.mb_turn.specs.Steps.{took, published, given, head_of, tail_of, both_of, blank};

use crate::booked::Booked;
use crate::sight::{Key, SeatView};
use atomic_table::{Join, Play, Split, TableRule};
use std::marker::PhantomData;

// The rule that every step on the table keeps.
pub struct Law<T> {
    of: PhantomData<T>,
}

impl<T: Booked> TableRule<Option<T>, SeatView<T>, Key<T>> for Law<T> {
    ghost holds = { Kept T.list T.stand T.origin T.tally };

    ghost first = { first_view };
}

// The step that takes the turn, where it is free.
pub struct Take<T> {
    of: PhantomData<T>,
}

impl<T: Booked> Play<Option<T>, SeatView<T>> for Take<T> {
    ghost then = { λ _ before word after. took T.list T.stand T.origin T.tally before word after };
}

// The step that publishes the count of the value that is about to be given.
pub struct Publish;

impl<T> Play<Option<T>, SeatView<T>> for Publish {
    ghost then = { λ _ before _ after. published before after };
}

// The step that gives the turn up, with the value at home.
pub struct Give;

impl<T> Play<Option<T>, SeatView<T>> for Give {
    ghost then = { λ _ before _ after. given before after };
}

// One sight leaves a seat, for a seat of its own.
pub struct Cut;

impl<T> Split<SeatView<T>> for Cut {
    ghost left = { tail_of };

    ghost right = { head_of };
}

// A seat takes in the sights of another.
pub struct Both;

impl<T> Join<SeatView<T>> for Both {
    ghost both = { both_of };

    ghost spent = { blank };
}
