//! The turn and its calls.
ghost use Rattle.std.specs.Prelude.{◌≡◌, ℕ, ◌+◌, ◌*◌, ◌/◌, ◌^◌, ◌<◌, ◌≤◌, Bool, true, false, ◌||◌, [], ◌∷◌, ◌++◌};
ghost use Rattle.std.specs.Prelude.{length, IfOk};
ghost use mathlib.Core.List.{IsPrefix};
ghost use Rattle.shares.specs.Shares.{owns};
ghost use Rattle.turn_lock.specs.Seats.{seat_view, IsAlone, IsSeatOf, MadeIsSeen};
ghost use Rattle.turn_lock.specs.Views.{opener, took, committed, gave, halved, newcomer, joined, learnt};

use crate::kept::Kept;
use crate::plays::{Commit, Cut, Give, Learn, Look, Merge, Take};
use crate::view::View;
use atomic_table::{Seat, Table, TableRule};
use nook_data::memory::NoMemory;
use std::alloc::Global;
use std::marker::{Model, PhantomData};
use std::snapshot::Snapshot;
use std::sync::Wait;

/// The rule of a turn: one value, one holder, and one list, of which every seat has seen a prefix.
pub struct OneTurn<T> {
    value: PhantomData<T>,
}

impl<T: Kept> TableRule<Option<T>, View<T::Entry, T::Origin>, Snapshot<T>> for OneTurn<T> {
    ghost use Rattle.std.specs.Prelude.{length};
    ghost use Rattle.turn_lock.specs.Turns.{IsTurn};

    ghost holds = { λ k. IsTurn T.list T.origin (T.origin k.value) (length (T.list k.value)) };

    ghost first = { λ k. opener (T.list k.value) (T.origin k.value) };
}

/// A caller's handle to a turn, which one thread has at a time. It takes no bytes, and its view says what the thread
/// has seen and made.
pub type TurnSeat<T> = Seat<Option<T>, View<<T as Kept>::Entry, <T as Kept>::Origin>>;

type TurnTable<T> = Table<
    Option<T>,
    View<<T as Kept>::Entry, <T as Kept>::Origin>,
    Snapshot<T>,
    OneTurn<T>,
    Global,
>;

/// A lock around one value. Threads share it by reference, and each uses its own seat.
///
/// No contract promises that a waiting call ever returns, or in which order threads get the turn.
#[derive(Drop)]
pub struct Turn<T: Kept> {
    table: TurnTable<T>,
}

impl<T: Kept> Model for Turn<T> {
    ghost use Rattle.std.specs.Prelude.{length, ◌≡◌};
    ghost use Rattle.turn_lock.specs.Seats.{Lock};

    ghost Value = { Lock T.Origin };

    ghost view = { λ t. record {
      table = t.table.shared.table_id;
      home = T.origin t.table.shared.key.value;
      start = length (T.list t.table.shared.key.value);
    } };

    ghost invariant = { λ t. t.table.shared.table_id.words ≡ 1 };
}

impl<T: Kept> Turn<T> {
    /// Makes a turn for a value with fewer than 2^62 entries, and its first seat, which is alone until it is split.
    ///
    /// On `NoMemory` the value is dropped.
    pub fn new(alloc: Global, value: T) -> Result<(Turn<T>, TurnSeat<T>), NoMemory>
        requires short { length (T.list value) < 2 ^ 62 }
        ensures seat { IfOk result (λ r. IsSeatOf r.0 r.1) }
        ensures home { IfOk result (λ r. r.0.home ≡ T.origin value) }
        ensures start { IfOk result (λ r. r.0.start ≡ length (T.list value)) }
        ensures view { IfOk result (λ r. seat_view r.1 ≡ opener (T.list value) (T.origin value)) }
    {
        let word = 2 * value.count();
        let about = Snapshot::of(&value);
        let mut slots = Vec::new(alloc);
        let Ok(()) = slots.push(Some(value)) else {
            return Err(NoMemory);
        };
        let Ok((table, seat)) = Table::new(alloc, &[word], slots, &about) else {
            return Err(NoMemory);
        };
        Ok((Turn { table }, seat))
    }

    /// Waits for the turn and returns the value. Its list begins with all that the seat has seen, and is exactly that
    /// if the seat is alone.
    ///
    /// The thread sleeps while the turn is out. It may wait forever.
    pub fn take(&self, rt: &impl Wait, seat: &mut TurnSeat<T>) -> T
        requires seat { IsSeatOf self.now seat.old }
        requires free { (seat_view seat.old).has ≡ false }
        ensures seat { IsSeatOf self.now seat.new }
        ensures view { seat_view seat.new ≡ took (seat_view seat.old) (T.list result) }
        ensures begins { IsPrefix (seat_view seat.old).seen (T.list result) }
        ensures origin { T.origin result ≡ self.now.home }
        ensures alone { IsAlone (seat_view seat.old) → T.list result ≡ (seat_view seat.old).seen }
        ensures short { length (T.list result) < 2 ^ 62 }
        ensures made { MadeIsSeen (seat_view seat.new) }
    {
        let shared = &self.table.shared;
        for _ in rt.forever() {
            let word = shared.peek(0);
            if word % 2 == 1 {
                // The thread sleeps on the low half of the word only, and each give changes it.
                shared.park(rt, 0, (word % (1 << 32)) as u32);
            } else if shared.compare_exchange::<Take>(seat, 0, word, word + 1) == word {
                return match shared.exchange(seat, 0, None) {
                    Some(value) => value,
                    None => unreachable!(),
                };
            }
        }
        unreachable!()
    }

    /// Gives the turn back with a value that has exactly one entry more than the one taken.
    ///
    /// The seat has then seen the whole list, and the entry's number, from 1, is among those that it made.
    pub fn commit_and_give(&self, seat: &mut TurnSeat<T>, value: T)
        requires seat { IsSeatOf self.now seat.old }
        requires turn { (seat_view seat.old).has ≡ true }
        requires entry { (entry : T.Entry)
            × (T.list value ≡ (seat_view seat.old).taken ++ entry ∷ []) }
        requires origin { T.origin value ≡ self.now.home }
        requires short { length (T.list value) < 2 ^ 62 }
        ensures seat { IsSeatOf self.now seat.new }
        ensures view { seat_view seat.new ≡ gave (committed (seat_view seat.old) (T.list value)) }
        ensures made { MadeIsSeen (seat_view seat.new) }
    {
        let shared = &self.table.shared;
        let _empty = shared.exchange(seat, 0, Some(value));
        shared.fetch_add::<Commit>(seat, 0, 2);
        shared.fetch_sub::<Give>(seat, 0, 1);
        shared.wake_one(0);
    }

    /// Gives the turn back with a value that has exactly the entries of the one taken. The seat has then seen all of
    /// them.
    pub fn give_back(&self, seat: &mut TurnSeat<T>, value: T)
        requires seat { IsSeatOf self.now seat.old }
        requires turn { (seat_view seat.old).has ≡ true }
        requires same { T.list value ≡ (seat_view seat.old).taken }
        requires origin { T.origin value ≡ self.now.home }
        ensures seat { IsSeatOf self.now seat.new }
        ensures view { seat_view seat.new ≡ gave (seat_view seat.old) }
        ensures made { MadeIsSeen (seat_view seat.new) }
    {
        let shared = &self.table.shared;
        let _none = shared.exchange(seat, 0, Some(value));
        shared.fetch_sub::<Give>(seat, 0, 1);
        shared.wake_one(0);
    }

    /// The number of entries at some moment of the call, whichever seat has the turn: no fewer than the seat has seen.
    pub fn look(&self, seat: &mut TurnSeat<T>) -> u64
        requires seat { IsSeatOf self.now seat.old }
        ensures seat { IsSeatOf self.now seat.new }
        ensures view { seat_view seat.new ≡ seat_view seat.old }
        ensures seen { length (seat_view seat.old).seen ≤ result }
        ensures taken { (seat_view seat.old).has ≡ true
            → result ≡ length (seat_view seat.old).taken }
        ensures alone { IsAlone (seat_view seat.old) → result ≡ length (seat_view seat.old).seen }
        ensures made { MadeIsSeen (seat_view seat.new) }
    {
        self.table.shared.load::<Look>(seat, 0) / 2
    }

    /// Makes another seat, which has seen the same and made nothing. Each of the two has half of the share.
    #[tactic(auto, using(shares::proofs::Shares::owns_halves))]
    pub fn split(&self, seat: &mut TurnSeat<T>) -> TurnSeat<T>
        requires seat { IsSeatOf self.now seat.old }
        ensures seat { IsSeatOf self.now seat.new }
        ensures other { IsSeatOf self.now result }
        ensures view { seat_view seat.new ≡ halved (seat_view seat.old) }
        ensures other_view { seat_view result ≡ newcomer (seat_view seat.old) }
        ensures shares { (point : ℕ → Bool) → owns (seat_view seat.old).share point
            ≡ (owns (seat_view seat.new).share point || owns (seat_view result).share point) }
    {
        self.table.shared.split_seat::<Cut>(seat)
    }

    /// Joins another seat into this one, which has then seen the longer of the two lists. Both lists are prefixes of
    /// it, and what either seat made now counts as made by this one.
    ///
    /// A seat is alone again once all that was split from it was joined into it, in any order.
    #[tactic(auto, using(shares::proofs::Shares::owns_append))]
    pub fn join(&self, seat: &mut TurnSeat<T>, other: TurnSeat<T>)
        requires seat { IsSeatOf self.now seat.old }
        requires other { IsSeatOf self.now other }
        requires free { (seat_view seat.old).has ≡ false }
        requires other_free { (seat_view other).has ≡ false }
        ensures seat { IsSeatOf self.now seat.new }
        ensures view { seat_view seat.new ≡ learnt (joined (seat_view seat.old) (seat_view other)) }
        ensures begins { IsPrefix (seat_view seat.old).seen (seat_view seat.new).seen }
        ensures other_begins { IsPrefix (seat_view other).seen (seat_view seat.new).seen }
        ensures shares { (point : ℕ → Bool) → owns (seat_view seat.new).share point
            ≡ (owns (seat_view seat.old).share point || owns (seat_view other).share point) }
        ensures made { MadeIsSeen (seat_view seat.new) }
    {
        self.table.shared.join_seat::<Merge>(seat, other);
        self.table.shared.load::<Learn>(seat, 0);
    }

    /// Ends the turn and returns the value. Its list begins with all that the seat has seen, and is exactly that if the
    /// seat is alone.
    ///
    /// It waits while another seat has the turn, and forever if that seat is gone.
    pub fn close(self, rt: &impl Wait, mut seat: TurnSeat<T>) -> T
        requires seat { IsSeatOf self seat }
        requires free { (seat_view seat).has ≡ false }
        ensures begins { IsPrefix (seat_view seat).seen (T.list result) }
        ensures origin { T.origin result ≡ self.home }
        ensures alone { IsAlone (seat_view seat) → T.list result ≡ (seat_view seat).seen }
        ensures short { length (T.list result) < 2 ^ 62 }
        ensures made { MadeIsSeen (seat_view seat) }
    {
        self.take(rt, &mut seat)
    }
}
