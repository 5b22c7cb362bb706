// Nobody sleeps on where the turn is free. No clause says so: a body that wakes who sleeps before it gives the turn up, or wakes
// nobody, is proved too.
ghost use Rattle.vl_turn.specs.Locks.{lock_name, lock_start};
ghost use Rattle.vl_turn.specs.Tokens.{IsTokenOf};

use crate::waiting::Nothing;
use std::marker::Brand;
use std::sync::Wait;
use std::sync::atomic::{AtomicU64, Ordering};
use std::test::Fail;
use std::thread::{join, sleep};
use std::time::{Clock, Duration};
use vl_turn::{Token, TurnLock};

// How many rounds two threads go, and how often each takes the turn in a round: 50,000 times in all.
const ROUNDS: u64 = 5_000;

const TURNS: u64 = 5;

// How often a thread looks for the other one before it naps, and for how many milliseconds it does so before it gives up.
const LOOKS: u64 = 200_000;

const NAPS: u64 = 15_000;

// What a thread that gave up has come to.
const OVER: u64 = u64::MAX;

// Whether the other thread comes so far.
fn comes<R: Clock>(rt: &R, other: &AtomicU64, far: u64) -> bool {
    for _ in 0..LOOKS {
        if other.load(Ordering::SeqCst) >= far {
            return true;
        }
    }
    for _ in 0..NAPS {
        sleep(rt, Duration::from_millis(1));
        if other.load(Ordering::SeqCst) >= far {
            return true;
        }
    }
    false
}

// Takes the turn and gives it up at once, so often.
fn take_turns<R: Wait>(
    rt: &R,
    lock: &TurnLock<Nothing>,
    mut token: Token<Nothing>,
    times: u64,
) -> Token<Nothing>
    requires token { IsTokenOf (lock_name lock.now) (lock_start lock.now) token }
    ensures token { IsTokenOf (lock_name lock.entry.now) (lock_start lock.entry.now) result }
{
    for _ in 0..times {
        let turn = lock.take(rt, &mut token);
        lock.give::<Brand, R>(rt, turn, false);
    }
    token
}

// Goes the rounds beside the other thread, and tells whether that came along. Both begin a round at once. Who ends it first
// stops there: where the other one sleeps then, nobody else wakes it.
fn go<R: Wait + Clock>(
    rt: &R,
    lock: &TurnLock<Nothing>,
    mut token: Token<Nothing>,
    mine: &AtomicU64,
    other: &AtomicU64,
) -> bool
    requires token { IsTokenOf (lock_name lock.now) (lock_start lock.now) token }
{
    for round in 0..ROUNDS {
        let begun = 2 * round + 1;
        mine.store(begun, Ordering::SeqCst);
        if !comes(rt, other, begun) {
            mine.store(OVER, Ordering::SeqCst);
            return false;
        }
        token = take_turns(rt, lock, token, TURNS);
        let ended = begun + 1;
        mine.store(ended, Ordering::SeqCst);
        if !comes(rt, other, ended) {
            // One turn more wakes it.
            mine.store(OVER, Ordering::SeqCst);
            take_turns(rt, lock, token, 1);
            return false;
        }
    }
    true
}

#[test]
fn who_sleeps_is_woken_where_the_other_stops(rt: HostRuntime) -> Result<(), Fail> {
    let (lock, mut root) = TurnLock::new(rt.alloc(), Nothing {})?;
    let one = lock.seat(&mut root)?;
    let two = lock.seat(&mut root)?;
    let (first, second) = (AtomicU64::new(0), AtomicU64::new(0));
    let (shared, handle) = (&lock, &rt);
    let (mine, other) = (&first, &second);
    let came = join(
        &rt,
        move || -> bool
            requires { IsTokenOf (lock_name shared.now) (lock_start shared.now) one }
        { go(handle, shared, one, mine, other) },
        move || -> bool
            requires { IsTokenOf (lock_name shared.now) (lock_start shared.now) two }
        { go(handle, shared, two, other, mine) },
    );
    assert!(&rt; came == (true, true));
    Ok(())
}
