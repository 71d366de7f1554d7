//! Tests of what no clause says: the calls succeed, threads get their turns, and a list grows by all commits.
ghost use Rattle.std.specs.Prelude.{◌≡◌, false};
ghost use Rattle.turn_lock.specs.Seats.{seat_view, IsSeatOf};

use std::process::Abort;
use std::sync::Wait;
use std::test::Fail;
use std::thread;
use std::time::{Clock, Duration};
use turn_lock::{Kept, Turn, TurnSeat};

// More entries than any test makes.
const MOST: usize = 1000;

// The commits of each thread if they alternate.
const ROUNDS: u64 = 10;

// A thread that waits for the other gives up after this many looks, a millisecond apart.
const LOOKS: u64 = 20_000;

/// Numbers in the order in which they were committed.
#[derive(Drop)]
struct Numbers {
    items: Vec<u64>,
}

impl Kept for Numbers {
    type Entry = u64;

    type Origin = ();

    ghost list = { λ n. n.items.items };

    ghost origin = { λ _. tt };

    fn count(&self) -> u64 {
        self.items.len() as u64
    }
}

// Takes the turn and commits a number.
fn commit<R: Wait + Abort>(rt: &R, turn: &Turn<Numbers>, seat: &mut TurnSeat<Numbers>, number: u64)
    requires seat { IsSeatOf turn.now seat.old }
    requires free { (seat_view seat.old).has ≡ false }
    ensures seat { IsSeatOf turn.now seat.new }
    ensures free { (seat_view seat.new).has ≡ false }
    ensures share { (seat_view seat.new).share ≡ (seat_view seat.old).share }
{
    let mut value = turn.take(rt, seat);
    assert!(rt; value.items.len() < MOST);
    value.items.push(number).expect(rt, "memory");
    turn.commit_and_give(seat, value);
}

// Looks until there are this many entries, and returns whether there were.
fn sees<R: Clock>(rt: &R, turn: &Turn<Numbers>, seat: &mut TurnSeat<Numbers>, expected: u64) -> bool
    requires seat { IsSeatOf turn.now seat.old }
    requires free { (seat_view seat.old).has ≡ false }
    ensures seat { IsSeatOf turn.now seat.new }
    ensures free { (seat_view seat.new).has ≡ false }
{
    for _ in 0..LOOKS {
        if turn.look(seat) >= expected {
            return true;
        }
        thread::sleep(rt, Duration::from_millis(1));
    }
    false
}

// Commits `me` once there are `me` entries, then again after each two more. Returns whether it saw all of these.
fn alternate<R: Wait + Abort + Clock>(
    rt: &R,
    turn: &Turn<Numbers>,
    mut seat: TurnSeat<Numbers>,
    me: u64,
) -> (bool, TurnSeat<Numbers>)
    requires seat { IsSeatOf turn.now seat }
    requires free { (seat_view seat).has ≡ false }
    ensures seat { IsSeatOf turn.now result.1 }
    ensures free { (seat_view result.1).has ≡ false }
{
    for round in 0..ROUNDS {
        if !sees(rt, turn, &mut seat, me.saturating_add(2 * round)) {
            return (false, seat);
        }
        commit(rt, turn, &mut seat, me);
    }
    (true, seat)
}

#[test]
fn two_threads_alternate(rt: HostRuntime) -> Result<(), Fail> {
    let (turn, mut seat) = Turn::new(
        rt.alloc(),
        Numbers {
            items: Vec::new(rt.alloc()),
        },
    )?;
    let other = turn.split(&mut seat);
    let ((saw, mut seat), (other_saw, other)) = thread::join(
        &rt,
        || alternate(&rt, &turn, seat, 0),
        || alternate(&rt, &turn, other, 1),
    );
    assert!(rt; saw && other_saw);
    turn.join(&mut seat, other);
    let value = turn.close(&rt, seat);
    assert_eq!(rt; value.count(), 2 * ROUNDS);
    assert!(rt;
        value
            .items
            .as_slice()
            .chunks(2)
            .all(|pair| pair == [0, 1].as_slice())
    );
    Ok(())
}
