//! Clients over a whole store, each with a sequence of its own, from its opening to its close.
ghost use Rattle.std.specs.Prelude.{◌≡◌, ◌≤◌, ℕ, List, IfOk, Some, map};
ghost use Rattle.vl_drive.specs.Driven.{IsClosed};
ghost use Rattle.vl_drive.specs.Steps.{history_by};
ghost use Rattle.vl_model.specs.History.{History, last_number, value_at};
ghost use Rattle.vl_sequence.specs.Counted.{HasCounted, ids_key};
ghost use Rattle.vl_sequence.specs.Leases.{number_in};

use crate::clients::{CountFail, KEY, take_all};
use crate::numbers::first_number;
use std::alloc::{AllocError, Global};
use std::sync::Wait;
use std::thread::Threads;
use vl_drive::{Closed, Shops, no_call_of_modest_shops_stops};

/// How many numbers all clients were given, how many leases they took for them, and the least number
/// that isn't leased in the end.
#[derive(Clone, Copy)]
pub struct Counted {
    pub given: u64,
    pub leases: u64,
    pub next: u64,
}

/// Opens a store, lets so many clients take so many numbers each, by leases of so many, and closes
/// it. The numbers are those of the key 0x71.
///
/// Each client has a session, a sequence and a thread of its own. Where another client was first it
/// asks again, and where the active log is full it seals it. Only leases write the key, so that no two
/// clients have a lease of the same number (`no_number_is_given_twice`).
///
/// Nothing but memory may be wanting. It may wait for ever where its shops do, and where a log has no
/// room for one commit or can't be sealed. Numbers are counted and not kept. No clause says that the
/// clients run side by side, or that a full log is sealed.
pub fn count_ids<T: Shops, R: Threads + Wait + Sync>(
    rt: &R,
    alloc: Global,
    clients: u32,
    count: u32,
    lease: u32,
) -> Result<Counted, AllocError>
    requires clients { (1 ≤ clients) × (clients ≤ 16) }
    requires count { (1 ≤ count) × (count ≤ 100000) }
    requires lease { (1 ≤ lease) × (lease ≤ 1000) }
    ensures counted { IfOk result (HasCounted clients count lease) }
    // The list of all steps is that of a store which was closed with these shops, and shows what it comes to.
    ensures shown { IfOk result (λ c. (closed : T.Closed) × (shops : List T.Shop) × (x : HasCounted clients count lease c)
        × IsClosed x.origin (map T.Shop.knows shops) x.list × T.Closed.shows closed (history_by x.origin x.list)) }
{
    no_call_of_modest_shops_stops();
    let (store, shops) = T::open(alloc, clients)?;
    match take_all(rt, alloc, shops, count, lease) {
        Ok((tally, shops)) => {
            let mut closed = store.close(rt, alloc, shops)?;
            let next = next_number(&mut closed)?;
            Ok(Counted {
                given: tally.given,
                leases: tally.leases,
                next,
            })
        }
        Err(CountFail::NoMemory) => Err(AllocError),
        Err(CountFail::Stopped { shops, .. }) => {
            // The whole list of steps has no place at which one could stop.
            let _closed = store.close(rt, alloc, shops)?;
            unreachable!()
        }
    }
}

// The least number that isn't leased, as the key tells it.
fn next_number<C: Closed>(closed: &mut C) -> Result<u64, AllocError>
    requires shown { (h : History) × (n : ℕ) × C.shows closed.old h
        × (number_in (value_at h (last_number h) ids_key) ≡ Some n) }
    ensures told { (h : History) → C.shows closed.old h
        → IfOk result (λ next. number_in (value_at h (last_number h) ids_key) ≡ Some next) }
    ensures still { (h : History) → C.shows closed.old h → C.shows closed.new h }
{
    let value = closed.get(&[KEY])?;
    match first_number(&value) {
        Ok(next) => Ok(next),
        Err(_) => unreachable!(),
    }
}
