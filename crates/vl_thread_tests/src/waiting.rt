// Who waits for the lock sleeps. No clause says so: a body that asks for the turn again and again is proved too.
ghost use Rattle.vl_turn.specs.Locks.{lock_name, lock_start};
ghost use Rattle.vl_turn.specs.Tokens.{IsTokenOf};

use std::marker::Brand;
use std::sync::Wait;
use std::test::Fail;
use std::thread::{join, sleep};
use std::time::{Clock, CpuClock, Duration};
use vl_turn::{Standing, Token, TurnLock};

// For how many milliseconds the turn is kept, when the other thread begins to wait, and how many of a processor's time may pass for it
// meanwhile.
const KEPT: u64 = 600;

const BEGINS: u64 = 100;

const WAITED: u64 = 50;

// What is entered. No value of it is made.
pub(crate) struct Entry {
    pub(crate) session: u64,
}

#[derive(Debug, Drop)]
pub(crate) struct Nothing {}

impl Standing for Nothing {
    type Entry = Entry;

    ghost by = { λ entry. entry.session };

    ghost stands = { λ _ _ _. Unit {0} };
}

// Has the turn for a while.
fn keep<R: Wait + Clock>(rt: &R, lock: &TurnLock<Nothing>, mut token: Token<Nothing>)
    requires token { IsTokenOf (lock_name lock.now) (lock_start lock.now) token }
{
    let turn = lock.take(rt, &mut token);
    sleep(rt, Duration::from_millis(KEPT));
    lock.give::<Brand, R>(rt, turn, false);
}

// Waits for the turn, and answers how much of a processor's time passed for it.
fn wait<R: Wait + Clock + CpuClock>(
    rt: &R,
    lock: &TurnLock<Nothing>,
    mut token: Token<Nothing>,
) -> Option<Duration>
    requires token { IsTokenOf (lock_name lock.now) (lock_start lock.now) token }
{
    sleep(rt, Duration::from_millis(BEGINS));
    let before = rt.thread_cpu_time().ok()?;
    let turn = lock.take(rt, &mut token);
    lock.give::<Brand, R>(rt, turn, false);
    let after = rt.thread_cpu_time().ok()?;
    after.checked_sub(before)
}

#[test]
fn who_waits_for_the_turn_sleeps(rt: HostRuntime) -> Result<(), Fail> {
    let (lock, mut root) = TurnLock::new(rt.alloc(), Nothing {})?;
    let one = lock.seat(&mut root)?;
    let two = lock.seat(&mut root)?;
    let (shared, handle) = (&lock, &rt);
    let (_, waited) = join(
        &rt,
        move || -> ()
            requires { IsTokenOf (lock_name shared.now) (lock_start shared.now) one }
        { keep(handle, shared, one) },
        move || -> Option<Duration>
            requires { IsTokenOf (lock_name shared.now) (lock_start shared.now) two }
        { wait(handle, shared, two) },
    );
    let waited = waited.expect(&rt, "the time of a thread can be read");
    assert!(&rt;
        waited < Duration::from_millis(WAITED),
        "{} ms of a processor's time passed",
        waited.as_millis()
    );
    Ok(())
}
