//! A teller: transfers from one account to another.

use crate::accounts::{ACCOUNTS, balance, set_balance};
use crate::refusals::go_on;
use anyhow::{Result, bail};
use std::alloc::Global;
use std::sync::Wait;
use vlstore::{Done, HeldFile, Reader, Session, Silent, Txn};

/// How many transfers a teller makes.
const TRANSFERS: u64 = 50;

/// How often a transfer is begun anew.
const TRIES: u32 = 10_000;

/// Makes transfers, and gives how many.
pub fn work<D: Silent, R: Wait>(
    rt: &R,
    alloc: Global,
    session: &mut Session<D>,
    teller: u32,
) -> Result<u64> {
    for turn in 0..TRANSFERS {
        let from = account(u64::from(teller).saturating_add(turn));
        let to = account(turn.saturating_mul(3).saturating_add(1));
        transfer(rt, alloc, session, from, to, turn % 7)?;
    }
    Ok(TRANSFERS)
}

fn account(n: u64) -> u8 {
    match ACCOUNTS.get((n % ACCOUNTS.len() as u64) as usize) {
        Some(account) => *account,
        None => b'a',
    }
}

/// Transfers an amount, or what there is where that is less. Where another commit changed one of the two accounts meanwhile, it
/// begins anew, and reads what they have now.
fn transfer<D: Silent, R: Wait>(
    rt: &R,
    alloc: Global,
    session: &mut Session<D>,
    from: u8,
    to: u8,
    amount: u64,
) -> Result<()> {
    for _ in 0..TRIES {
        let mut txn = session.begin(rt)?;
        if let Err(error) = move_money(alloc, &mut txn, from, to, amount) {
            session.forget(rt, txn);
            return Err(error);
        }
        match session.commit(rt, txn) {
            Ok(Done::At(_) | Done::Nothing) => return Ok(()),
            Err(fail) => go_on(rt, session, fail)?,
        }
    }
    bail!("others always came first")
}

/// Reads both accounts and writes both, beside the store's lock.
fn move_money<H: HeldFile, R: Reader<Held = H> + Drop>(
    alloc: Global,
    txn: &mut Txn<H, R>,
    from: u8,
    to: u8,
    amount: u64,
) -> Result<()> {
    if from == to {
        return Ok(());
    }
    let had = balance(txn, from)?;
    let has = balance(txn, to)?;
    let amount = amount.min(had);
    set_balance(alloc, txn, from, had - amount)?;
    let Some(more) = has.checked_add(amount) else {
        bail!("an account has too much");
    };
    set_balance(alloc, txn, to, more)
}
