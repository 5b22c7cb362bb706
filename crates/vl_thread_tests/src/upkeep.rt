// The last shop goes a round of upkeep for each turn of a client. No clause says so: a body that goes none is
// proved too.
use crate::watched::{Calls, Watched, one_client, three};
use std::alloc::Global;
use std::sync::Wait;
use std::sync::atomic::Ordering;
use std::test::Fail;
use std::thread::Threads;
use vl_drive::{NoGate, Shops, Tally};
use vlstore::SureStore;

// So many turns of one client over a new store, with the calls of either shop counted.
fn kept_up<T: Shops, R: Threads + Wait + Sync>(
    rt: &R,
    alloc: Global,
    turns: &Calls,
    upkeep: &Calls,
    txns: u32,
) -> Option<Tally> {
    let (_store, client, keeper, _other) = three::<T>(alloc)?;
    let client = Watched {
        shop: client,
        calls: turns,
    };
    let keeper = Watched {
        shop: keeper,
        calls: upkeep,
    };
    one_client(rt, alloc, client, keeper, &NoGate, txns)
}

#[test]
fn the_last_shop_goes_a_round_for_each_turn(rt: HostRuntime) -> Result<(), Fail> {
    let (turns, upkeep) = (Calls::new(), Calls::new());
    let tally = kept_up::<SureStore, HostRuntime>(&rt, rt.alloc(), &turns, &upkeep, 25).expect(
        &rt,
        "there is memory",
    );
    assert_eq!(&rt; (tally.commits, tally.conflicts), (25, 0));
    assert_eq!(&rt; upkeep.steps.load(Ordering::SeqCst), 5 * 25);
    assert_eq!(&rt; upkeep.strays.load(Ordering::SeqCst), 0);
    // The client goes none.
    assert_eq!(&rt; turns.steps.load(Ordering::SeqCst), 0);
    assert_eq!(&rt; turns.strays.load(Ordering::SeqCst), 0);
    Ok(())
}
