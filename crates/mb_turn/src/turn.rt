ghost use Rattle.std.specs.Prelude.{◌≡◌, ◌≢◌, ℕ, ◌≤◌, ◌<◌, ◌+◌, true, false, List, [], ◌∷◌, ◌++◌, length, map, IfOk, IfErr, IsSome, Some, vec_len, vec_capacity};
ghost use Rattle.std.specs.List.{range_with_len};
ghost use mathlib.Core.List.{IsPrefix};
ghost use Rattle.mb_kinds.specs.Own.{own};
ghost use Rattle.mb_kinds.specs.declared.Entry.{Entry};
ghost use Rattle.mb_turn.specs.Passes.{EachIn, known, ContinuesBy, Follows, Adds, seen, mine, origin_of, tally_of, stand_of, found, dealt};
ghost use Rattle.mb_turn.specs.Rule.{free, held, sight, idle, sights_from, sight_of_card, sight_of_pass};
ghost use Rattle.mb_turn.specs.Steps.{tail_of, tail_sights, both_of};

use crate::booked::Booked;
use crate::pass::{Card, Pass};
use crate::rule::{Both, Cut, Give, Law, Publish, Take};
use crate::sight::{Key, SeatView};
use atomic_table::{Refused, Seat, Shared, Table};
use std::alloc::{AllocError, Global};
use std::hint::spin_loop;
use std::marker::Model;
use std::snapshot::Snapshot;
use std::sync::Wait;
use std::time::Duration;

// How often a caller that finds the turn taken looks at it, before it sleeps: for about as long as a short hold takes.
const LOOKS: u32 = 20;

// For how many milliseconds it sleeps. A value that goes to another processor takes its memory there with it, which costs more
// than a short hold does, so the caller that runs is let alone for some hundreds of holds.
const NAP: u64 = 20;

/// The passes of a turn.
pub type PassList<T> = Vec<Pass<T>>;

/// A value that several callers change, one at a time. A caller takes it and gives it back by its
/// pass; while it is out, the other callers wait.
pub struct Turn<T: Booked> {
    table: Table<Option<T>, SeatView<T>, Key<T>, Law<T>, Global>,
}

impl<T: Booked> Model for Turn<T> {
    ghost use Rattle.std.specs.Prelude.{◌≡◌, ◌<◌};
    ghost use Rattle.mb_turn.specs.Passes.{Room};

    ghost Value = { Room };

    ghost view = { λ t. record { table = t.table.shared.table_id; callers = t.table.shared.key.callers } };

    ghost invariant = { λ t. (t.table.shared.table_id.words ≡ 2) × (t.table.shared.table_id.slots ≡ 1) × (0 < t.table.shared.key.callers) };
}

impl<T: Booked> Turn<T> {
    /// A turn over the value, with a pass for each caller from 0 to `callers - 1`, in this order.
    /// Without memory the value comes back.
    pub fn start(alloc: Global, value: T, callers: u8) -> Result<(Turn<T>, PassList<T>), T>
        requires some { 0 < callers }
        requires stands { (caller : ℕ) → caller < callers → IsSome (T.stand value caller) }
        ensures turn { IfOk result (λ started. started.0.callers ≡ callers) }
        ensures passes { IfOk result (λ started. started.1.items ≡ dealt started.0.table callers value) }
        ensures value { IfErr result (λ back. back ≡ value) }
    {
        let Ok(cards) = cards_of(alloc, &value, callers) else {
            return Err(value);
        };
        let Ok(passes) = Vec::with_capacity(alloc, cards.len()) else {
            return Err(value);
        };
        let (turn, seat) = laid(alloc, value, callers)?;
        let passes = deal(&turn.table.shared, seat, cards, passes);
        Ok((turn, passes))
    }

    /// Waits until no other pass has the turn, and lends the value to this one. What the pass knows
    /// of the value becomes the value as it is now.
    pub fn take<R: Wait>(&self, rt: &R, pass: &mut Pass<T>) -> T
        requires table { pass.old.table ≡ self.now.table }
        requires free { pass.old.holds ≡ false }
        ensures origin { T.origin result ≡ origin_of T.origin pass.old }
        ensures tally { T.tally result ≤ tally_of T.tally pass.old }
        ensures seen { IsPrefix (seen T.list pass.old) (T.list result) }
        ensures mine { own (T.list result) pass.old.caller ≡ mine T.list pass.old }
        ensures stand { T.stand result pass.old.caller ≡ stand_of T.stand pass.old }
        ensures pass { pass.new ≡ known pass.old.table pass.old.caller result true }
    {
        let shared = &self.table.shared;
        win(rt, shared, &mut pass.seat, &pass.card);
        let value = shared.exchange(&mut pass.seat, 0, None).unwrap();
        pass.card.see(&value);
        value
    }

    /// Puts the value home, which frees the turn. Since the pass took it, its caller alone added
    /// entries, no other caller's stand changed, and the value's tally was not raised.
    pub fn give(&self, pass: &mut Pass<T>, value: T)
        requires table { pass.old.table ≡ self.now.table }
        requires held { pass.old.holds ≡ true }
        requires origin { T.origin value ≡ origin_of T.origin pass.old }
        requires tally { T.tally value ≤ tally_of T.tally pass.old }
        requires list { ContinuesBy pass.old.caller (seen T.list pass.old) (T.list value) }
        requires others { (other : ℕ) → other ≢ pass.old.caller → T.stand value other ≡ found T.stand pass.old other }
        requires stand { IsSome (T.stand value pass.old.caller) }
        ensures pass { pass.new ≡ known pass.old.table pass.old.caller value false }
        ensures mine { (new : List Entry) → T.list value ≡ seen T.list pass.old ++ new
            → mine T.list pass.new ≡ mine T.list pass.old ++ new }
    {
        let shared = &self.table.shared;
        let count = value.entries();
        let card = Card::of(&value, pass.card.caller());
        let empty = shared.exchange(&mut pass.seat, 0, Some(value));
        let None = empty else { unreachable!() };
        publish(shared, &mut pass.seat, &card, count);
        give_up(shared, &mut pass.seat, &card);
        pass.card = card;
    }

    /// Wakes one of the callers that sleep until they look for the turn again: for a caller that takes it no more.
    pub fn wake(&self) {
        self.table.shared.wake_one(0);
    }

    /// Takes the turn apart, with all its passes, and gives the value back.
    pub fn close(self, passes: PassList<T>) -> T
        requires all { length passes.items ≡ self.callers }
        requires table { EachIn (λ pass. pass.table ≡ self.table) passes.items }
        requires free { EachIn (λ pass. pass.holds ≡ false) passes.items }
        ensures origin { EachIn (λ pass. T.origin result ≡ origin_of T.origin pass) passes.items }
        ensures tally { EachIn (λ pass. T.tally result ≤ tally_of T.tally pass) passes.items }
        ensures seen { EachIn (λ pass. IsPrefix (seen T.list pass) (T.list result)) passes.items }
        ensures mine { EachIn (λ pass. own (T.list result) pass.caller ≡ mine T.list pass) passes.items }
        ensures stand { EachIn (λ pass. T.stand result pass.caller ≡ stand_of T.stand pass) passes.items }
    {
        let Turn { table } = self;
        let seat = gather(&table.shared, passes);
        let mut closed = table.close_with(seat);
        let value = closed.take(0).unwrap();
        closed.free();
        value
    }
}

// A card for each caller, which sees the value.
fn cards_of<T: Booked>(alloc: Global, value: &T, callers: u8) -> Result<Vec<Card<T>>, AllocError>
    requires { (caller : ℕ) → caller < callers → IsSome (T.stand value.now caller) }
    ensures { IfOk result (λ cards.
        (cards.items ≡ map (λ caller. (caller, value.now)) (range_with_len 0 callers))
        × (vec_len cards ≡ callers)) }
{
    let mut cards = Vec::with_capacity(alloc, callers as usize)?;
    for caller in 0..callers {
        cards.push_reserved(Card::of(value, caller));
    }
    Ok(cards)
}

// A turn with the value at home, and the first seat, which has a sight of each caller.
fn laid<T: Booked>(
    alloc: Global,
    value: T,
    callers: u8,
) -> Result<(Turn<T>, Seat<Option<T>, SeatView<T>>), T>
    requires { 0 < callers }
    ensures turn { IfOk result (λ made. made.0.callers ≡ callers) }
    ensures seat { IfOk result (λ made. (made.1.table_id ≡ made.0.table)
        × (made.1.me ≡ (idle (sights_from 0 callers value), []))) }
    ensures value { IfErr result (λ back. back ≡ value) }
{
    let count = value.entries();
    let about = Key {
        callers,
        first: Snapshot::of(&value),
    };
    let Ok(mut slots) = Vec::with_capacity(alloc, 1) else {
        return Err(value);
    };
    slots.push_reserved(Some(value));
    match Table::new(alloc, &[0, count], slots, &about) {
        Ok((table, seat)) => Ok((Turn { table }, seat)),
        Err(Refused { mut slots }) => {
            let value = slots.pop().unwrap().unwrap();
            slots.destroy_empty();
            Err(value)
        }
    }
}

// A pass for each card.
fn deal<T: Booked>(
    shared: &Shared<Option<T>, SeatView<T>, Key<T>, Law<T>>,
    mut seat: Seat<Option<T>, SeatView<T>>,
    cards: Vec<Card<T>>,
    mut passes: Vec<Pass<T>>,
) -> Vec<Pass<T>>
    requires table { (seat.table_id ≡ shared.now.table_id) × (0 < shared.now.table_id.words) }
    requires seat { seat.me ≡ (idle (map sight_of_card cards.items), []) }
    requires room { (passes.items ≡ []) × (vec_len passes ≡ 0) × (vec_capacity passes ≡ vec_len cards) }
    ensures { result.items ≡ map (λ card. known shared.now.table_id card.0 card.1 false) cards.items }
{
    for card in cards {
        passes.push_reserved(cut(shared, &mut seat, card));
    }
    passes
}

// The pass of the card whose sight is the seat's first.
fn cut<T: Booked>(
    shared: &Shared<Option<T>, SeatView<T>, Key<T>, Law<T>>,
    seat: &mut Seat<Option<T>, SeatView<T>>,
    card: Card<T>,
) -> Pass<T>
    requires table { (seat.old.table_id ≡ shared.now.table_id) × (0 < shared.now.table_id.words) }
    requires seat { seat.old.me ≡ (idle (sight_of_card card ∷ tail_sights seat.old.me.0.sights), []) }
    ensures table { seat.new.table_id ≡ seat.old.table_id }
    ensures seat { seat.new.me ≡ (tail_of seat.old.me.0, []) }
    ensures pass { result ≡ known shared.now.table_id card.0 card.1 false }
{
    let one = shared.split_seat::<Cut>(seat);
    Pass::new(card, one)
}

// Takes the turn where it is free, and else looks again later.
fn win<T: Booked, R: Wait>(
    rt: &R,
    shared: &Shared<Option<T>, SeatView<T>, Key<T>, Law<T>>,
    seat: &mut Seat<Option<T>, SeatView<T>>,
    card: &Card<T>,
)
    requires table { (seat.old.table_id ≡ shared.now.table_id) × (0 < shared.now.table_id.words) }
    requires seat { seat.old.me ≡ (free card.now.0 card.now.1, []) }
    ensures table { seat.new.table_id ≡ seat.old.table_id }
    ensures won { (value : T) × Follows T.list T.stand T.origin T.tally card.now.0 card.now.1 value
        × (seat.new.me ≡ (held card.now.0 value, (0, Some value) ∷ [])) }
{
    let _ = card;
    for _ in rt.forever() {
        if shared.compare_exchange::<Take<T>>(seat, 0, 0, 1) == 0 {
            return;
        }
        linger(rt, shared);
    }
    unreachable!()
}

// Looks at the turn for a moment, until it is free; then sleeps for a while.
fn linger<T: Booked, R: Wait>(rt: &R, shared: &Shared<Option<T>, SeatView<T>, Key<T>, Law<T>>)
    requires { 0 < shared.now.table_id.words }
{
    for _ in 0..LOOKS {
        if shared.peek(0) == 0 {
            return;
        }
        spin_loop();
    }
    shared.park_timeout(rt, 0, 1, Duration::from_millis(NAP));
}

// Publishes the count of the value that lies in the seat's slot, which is the one that the card sees.
fn publish<T: Booked>(
    shared: &Shared<Option<T>, SeatView<T>, Key<T>, Law<T>>,
    seat: &mut Seat<Option<T>, SeatView<T>>,
    card: &Card<T>,
    count: u64,
)
    requires table { (seat.old.table_id ≡ shared.now.table_id) × (1 < shared.now.table_id.words) }
    requires count { count ≡ length (T.list card.now.1) }
    requires seat { (took : T) × Adds T.list T.stand T.origin T.tally card.now.0 took card.now.1
        × (seat.old.me ≡ (held card.now.0 took, (0, Some card.now.1) ∷ [])) }
    ensures table { seat.new.table_id ≡ seat.old.table_id }
    ensures seat { seat.new.me ≡ (held card.now.0 card.now.1, (0, Some card.now.1) ∷ []) }
{
    let _ = card;
    shared.store::<Publish>(seat, 1, count);
}

// Gives the turn up, with the value that lies in the seat's slot. Who waits for it looks for itself.
fn give_up<T: Booked>(
    shared: &Shared<Option<T>, SeatView<T>, Key<T>, Law<T>>,
    seat: &mut Seat<Option<T>, SeatView<T>>,
    card: &Card<T>,
)
    requires table { (seat.old.table_id ≡ shared.now.table_id) × (0 < shared.now.table_id.words)
        × (shared.now.table_id.slots ≡ 1) }
    requires seat { seat.old.me ≡ (held card.now.0 card.now.1, (0, Some card.now.1) ∷ []) }
    ensures table { seat.new.table_id ≡ seat.old.table_id }
    ensures seat { seat.new.me ≡ (free card.now.0 card.now.1, []) }
{
    let _ = card;
    shared.store::<Give>(seat, 0, 0);
}

// One seat with the sights of all passes.
fn gather<T: Booked>(
    shared: &Shared<Option<T>, SeatView<T>, Key<T>, Law<T>>,
    passes: Vec<Pass<T>>,
) -> Seat<Option<T>, SeatView<T>>
    requires some { (0 < length passes.items) × (0 < shared.now.table_id.words) }
    requires table { EachIn (λ pass. pass.table ≡ shared.now.table_id) passes.items }
    requires free { EachIn (λ pass. pass.holds ≡ false) passes.items }
    ensures table { result.table_id ≡ shared.now.table_id }
    ensures seat { result.me ≡ (idle (map sight_of_pass passes.items), []) }
{
    let mut passes = passes.into_iter();
    let Some(first) = passes.next() else {
        unreachable!()
    };
    let mut seat = first.into_seat();
    for pass in passes {
        absorb(shared, &mut seat, pass);
    }
    seat
}

// The seat takes in the sight of a pass.
fn absorb<T: Booked>(
    shared: &Shared<Option<T>, SeatView<T>, Key<T>, Law<T>>,
    seat: &mut Seat<Option<T>, SeatView<T>>,
    pass: Pass<T>,
)
    requires table { (seat.old.table_id ≡ shared.now.table_id) × (pass.table ≡ shared.now.table_id)
        × (0 < shared.now.table_id.words) }
    requires free { (seat.old.me.0.holds ≡ false) × (pass.holds ≡ false) }
    ensures table { seat.new.table_id ≡ seat.old.table_id }
    ensures seat { seat.new.me ≡ (both_of seat.old.me.0 (free pass.caller pass.value), seat.old.me.1) }
{
    shared.join_seat::<Both>(seat, pass.into_seat());
}
