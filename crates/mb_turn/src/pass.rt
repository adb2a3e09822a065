ghost use Rattle.std.specs.Prelude.{◌≡◌, ℕ, false, [], IsSome};
ghost use Rattle.mb_turn.specs.Passes.{Known, known, Begins, stand_of};
ghost use Rattle.mb_turn.specs.Rule.{free};

use crate::booked::Booked;
use crate::sight::SeatView;
use atomic_table::Seat;
use std::marker::Model;
use std::snapshot::Snapshot;

// A caller, and what it saw last, with the number of its calls that had begun then.
#[derive(Drop)]
pub struct Card<T: Booked> {
    caller: u8,
    begun: u32,
    saw: Snapshot<T>,
}

impl<T: Booked> Model for Card<T> {
    ghost use Rattle.std.specs.Prelude.{ℕ};
    ghost use Rattle.mb_turn.specs.Passes.{Begins};

    ghost Value = { ℕ × T };

    ghost view = { λ card. (card.caller, card.saw.value) };

    ghost invariant = { λ card. Begins (T.stand card.saw.value card.caller) card.begun × T.always card.saw.value };
}

impl<T: Booked> Card<T> {
    /// The card of a caller that sees the value.
    pub fn of(value: &T, caller: u8) -> Card<T>
        requires { IsSome (T.stand value.now caller) }
        ensures { result ≡ (caller, value.now) }
    {
        value.show();
        Card {
            caller,
            begun: value.begun(caller),
            saw: Snapshot::of(value),
        }
    }

    /// The caller sees a value in which it stands as before.
    pub fn see(&mut self, value: &T)
        requires { T.stand value.now self.old.0 ≡ T.stand self.old.1 self.old.0 }
        ensures { self.new ≡ (self.old.0, value.now) }
    {
        value.show();
        self.saw = Snapshot::of(value);
    }

    /// The caller's number.
    pub fn caller(&self) -> u8
        ensures { result ≡ self.now.0 }
    {
        self.caller
    }

    /// How many calls of the caller had begun in the value that it saw.
    pub fn begun(&self) -> u32
        ensures { Begins (T.stand self.now.1 self.now.0) result }
    {
        self.begun
    }

    /// It does nothing, and shows what the type of the value that the caller saw says of it.
    pub fn show(&self)
        ensures { T.always self.now.1 }
    {
        let _begun = self.begun;
    }
}

/// A caller's part in a turn: what it has seen of the value, and the right to take the turn.
/// A pass belongs to the turn that made it.
#[derive(Drop)]
pub struct Pass<T: Booked> {
    pub(crate) card: Card<T>,
    pub(crate) seat: Seat<Option<T>, SeatView<T>>,
}

impl<T: Booked> Model for Pass<T> {
    ghost use Rattle.std.specs.Prelude.{◌≡◌};
    ghost use Rattle.mb_turn.specs.Passes.{Known, known};
    ghost use Rattle.mb_turn.specs.Rule.{resting};

    ghost Value = { Known T };

    ghost view = { λ p. known p.seat.table_id p.card.0 p.card.1 p.seat.me.0.holds };

    ghost invariant = { λ p. p.seat.me ≡ resting p.card.0 p.card.1 p.seat.me.0.holds };
}

impl<T: Booked> Pass<T> {
    // A pass of the card's caller, which has not the turn.
    pub(crate) fn new(card: Card<T>, seat: Seat<Option<T>, SeatView<T>>) -> Pass<T>
        requires { seat.me ≡ (free card.0 card.1, []) }
        ensures { result ≡ known seat.table_id card.0 card.1 false }
    {
        Pass { card, seat }
    }

    pub(crate) fn into_seat(self) -> Seat<Option<T>, SeatView<T>>
        requires { self.holds ≡ false }
        ensures { (result.table_id ≡ self.table) × (result.me ≡ (free self.caller self.value, [])) }
    {
        let Pass { card: _, seat } = self;
        seat
    }

    /// The number of the caller whose pass it is.
    pub fn caller(&self) -> u8
        ensures { result ≡ self.now.caller }
    {
        self.card.caller()
    }

    /// How many calls of this caller had begun in the value that it saw last.
    pub fn begun(&self) -> u32
        ensures { Begins (stand_of T.stand self.now) result }
    {
        self.card.begun()
    }

    /// It does nothing, and shows what the type of the value that this caller saw last says of it.
    pub fn show(&self)
        ensures { T.always self.now.value }
    {
        self.card.show();
    }
}
