// The gate is called behind a turn's reads and before its writes, and again behind its commit. No clause says
// so: a body that calls it elsewhere, or never, is proved too.
use crate::watched::{Calls, Watched, one_client, three};
use std::alloc::Global;
use std::ops::Range;
use std::sync::atomic::{AtomicU64, Ordering};
use std::sync::{Mutex, Wait};
use std::test::Fail;
use std::thread::Threads;
use vl_drive::{BeginFail, Done, Gate, Point, Shop, Shops, Tally};
use vlstore::SureStore;

// One more session, which commits while a turn stands at its gate; and how often the turn stood where it has to.
#[derive(Drop)]
struct Other<'a, R, S: Drop> {
    rt: &'a R,
    shop: Mutex<S>,
    calls: &'a Calls,
    met: AtomicU64,
}

impl<R: Wait, S: Shop> Gate for Other<'_, R, S> {
    fn at(&self, _client: u32, turn: u32, point: Point) {
        let met = self.calls.stand_at(turn, point);
        let accounts = match point {
            Point::BeforeCommit => odd_last(self.calls, turn),
            Point::AfterCommit => 0..64,
        };
        let mut guard = self.shop.lock(self.rt);
        let shop = &mut *guard;
        for account in accounts {
            let mut txn = match shop.begin(self.rt) {
                Ok(txn) => txn,
                Err(BeginFail::TooMany | BeginFail::NoMemory) => return,
            };
            if shop.set(&mut txn, &[account], &[0; 80]).is_err() {
                return;
            }
            match shop.commit(self.rt, txn) {
                Ok(Done::At(_)) => {}
                Ok(Done::Nothing) => return,
                Err(_) => return,
            }
        }
        if met {
            self.met.fetch_add(1, Ordering::SeqCst);
        }
    }
}

// In odd turns the account that was read last, which is one of the turn's two; and else none.
fn odd_last(calls: &Calls, turn: u32) -> Range<u8> {
    let last = calls.last();
    if turn % 2 == 1 {
        last..last + 1
    } else {
        last..last
    }
}

// So many turns of one client over a new store, at whose gate another session commits; and how often it did so
// while the turn stood where it has to.
fn met_by<T: Shops, R: Threads + Wait + Sync>(
    rt: &R,
    alloc: Global,
    turns: &Calls,
    upkeep: &Calls,
    txns: u32,
) -> Option<(Tally, u64)> {
    let (_store, client, keeper, other) = three::<T>(alloc)?;
    let gate = Other {
        rt,
        shop: Mutex::new(other),
        calls: turns,
        met: AtomicU64::new(0),
    };
    let client = Watched {
        shop: client,
        calls: turns,
    };
    let keeper = Watched {
        shop: keeper,
        calls: upkeep,
    };
    let tally = one_client(rt, alloc, client, keeper, &gate, txns)?;
    Some((tally, gate.met.load(Ordering::SeqCst)))
}

#[test]
fn another_session_commits_at_the_gate(rt: HostRuntime) -> Result<(), Fail> {
    let (turns, upkeep) = (Calls::new(), Calls::new());
    let (tally, met) = met_by::<SureStore, HostRuntime>(
        &rt,
        rt.alloc(),
        &turns,
        &upkeep,
        10,
    ).expect(&rt, "there is memory");
    // Both points of each turn.
    assert_eq!(&rt; met, 20);
    // An odd turn had read the account that was written at its first point. Even ones stay committed, whatever
    // is written at the second.
    assert_eq!(&rt; (tally.commits, tally.conflicts), (5, 5));
    Ok(())
}
