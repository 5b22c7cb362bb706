//! Clients over a whole store, from its opening to the sum of all balances in the end.
ghost use Rattle.std.specs.Prelude.{◌≡◌, ◌<◌, ◌≤◌, ◌^◌, IfOk};
ghost use Rattle.vl_drive.specs.Accounts.{total_after};
ghost use Rattle.vl_drive.specs.Driven.{HasDriven};
ghost use Rattle.vl_drive.specs.Steps.{history_by};
ghost use Rattle.vl_model.specs.History.{History};

use crate::accounts::balance_in;
use crate::clients::{DriveFail, drive};
use crate::gate::NoGate;
use crate::shops::{Closed, Shops};
use std::alloc::{AllocError, Global};
use std::sync::Wait;
use std::thread::Threads;

/// How many transfers were committed, how many met a conflict, and the sum of all balances in the end.
#[derive(Clone, Copy)]
pub struct Driven {
    pub commits: u64,
    pub conflicts: u64,
    pub total: u64,
}

/// Opens a store, lets so many clients take so many turns each over it, beside its upkeep, and closes it. What it
/// held then is handed out too.
///
/// Nothing but memory may be wanting. It may wait for ever where its shops do, and where a log has no room for one
/// commit.
pub fn drive_store<T: Shops, R: Threads + Wait + Sync>(
    rt: &R,
    alloc: Global,
    clients: u32,
    txns: u32,
    seed: u64,
) -> Result<(Driven, T::Closed), AllocError>
    requires { (1 ≤ clients) × (clients ≤ 16) }
    // The list of all steps is the closed store's own: what it shows is what the list comes to.
    ensures { IfOk result (λ r. (driven : HasDriven clients txns seed r.0)
        × T.Closed.shows r.1 (history_by driven.origin driven.list)) }
{
    let (store, shops) = T::open(alloc, clients + 1)?;
    match drive(rt, alloc, shops, &NoGate, txns, seed) {
        Ok((tally, shops)) => {
            let mut closed = store.close(rt, alloc, shops)?;
            let total = total(&mut closed)?;
            let driven = Driven {
                commits: tally.commits,
                conflicts: tally.conflicts,
                total,
            };
            Ok((driven, closed))
        }
        Err(DriveFail::NoMemory) => Err(AllocError),
        Err(DriveFail::Stopped { shops, .. }) => {
            // The whole list of steps has no place at which one could stop.
            let _closed = store.close(rt, alloc, shops)?;
            unreachable!()
        }
    }
}

// The sum of all balances.
fn total<C: Closed>(closed: &mut C) -> Result<u64, AllocError>
    requires shown { (h : History) × C.shows closed.old h × (total_after h < 2 ^ 64) }
    ensures total { (h : History) → C.shows closed.old h
        → IfOk result (λ total. total ≡ total_after h) }
    ensures still { (h : History) → C.shows closed.old h → C.shows closed.new h }
{
    let mut total = 0;
    for account in 0..64 {
        total += balance_in(&closed.get(&[account])?);
    }
    Ok(total)
}
