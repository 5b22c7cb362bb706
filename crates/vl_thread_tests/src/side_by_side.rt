// Clients run side by side. No clause says so: a body that lets one client after the other take its turns is proved too.
ghost use Rattle.std.specs.Prelude.{◌≤◌, ◌<◌};

use std::alloc::Global;
use std::sync::Wait;
use std::sync::atomic::{AtomicU64, Ordering};
use std::test::Fail;
use std::thread::Threads;
use vl_drive::{Gate, Point, Shops, Tally, drive};
use vlstore::SureStore;

// How often a client looks for the other one before it gives up.
const LOOKS: u64 = 100_000_000;

// Two clients that wait for each other in their first turn.
#[derive(Drop)]
struct Meeting {
    first: AtomicU64,
    second: AtomicU64,
    missed: AtomicU64,
}

impl Gate for Meeting {
    fn at(&self, client: u32, turn: u32, point: Point) {
        if turn != 1 {
            return;
        }
        if let Point::BeforeCommit = point {
            if client == 0 {
                meet(&self.first, &self.second, &self.missed);
            } else {
                meet(&self.second, &self.first, &self.missed);
            }
        }
    }
}

// Sets its own flag, and waits for the other one.
fn meet(mine: &AtomicU64, other: &AtomicU64, missed: &AtomicU64) {
    mine.store(1, Ordering::SeqCst);
    for _ in 0..LOOKS {
        if other.load(Ordering::SeqCst) == 1 {
            return;
        }
    }
    missed.store(1, Ordering::SeqCst);
}

// One turn of each client over a new store.
fn driven_by<T: Shops, R: Threads + Wait + Sync, G: Gate + Sync>(
    rt: &R,
    alloc: Global,
    gate: &G,
    clients: u32,
) -> Option<Tally>
    requires { (1 ≤ clients) × (clients < 64) }
{
    let Ok((_store, shops)) = T::open(alloc, clients + 1) else {
        return None;
    };
    match drive(rt, alloc, shops, gate, 1, 7) {
        Ok((tally, _shops)) => Some(tally),
        Err(_) => None,
    }
}

#[test]
fn two_clients_meet_between_their_reads_and_commits(rt: HostRuntime) -> Result<(), Fail> {
    let meeting = Meeting {
        first: AtomicU64::new(0),
        second: AtomicU64::new(0),
        missed: AtomicU64::new(0),
    };
    let tally = driven_by::<SureStore, HostRuntime, Meeting>(&rt, rt.alloc(), &meeting, 2).expect(
        &rt,
        "there is memory",
    );
    assert_eq!(&rt; meeting.missed.load(Ordering::SeqCst), 0);
    assert_eq!(&rt; tally.commits.checked_add(tally.conflicts), Some(2));
    Ok(())
}
