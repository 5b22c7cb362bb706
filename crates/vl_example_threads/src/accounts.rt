//! The accounts: under each account's letter its balance, as text.

use crate::refusals::go_on;
use anyhow::{Result, bail};
use std::alloc::Global;
use std::sync::Wait;
use vlstore::{Done, HeldFile, Reader, Session, Silent, Txn, View, Way};

/// The accounts' letters.
pub const ACCOUNTS: &[u8] = b"abcdefgh";

/// What each account has at first.
const AT_FIRST: u64 = 100;

/// Gives each account what it has at first, in one commit, whose number it gives; or none where there are accounts already.
pub fn fill<D: Silent, R: Wait>(
    rt: &R,
    alloc: Global,
    session: &mut Session<D>,
) -> Result<Option<u64>> {
    let mut txn = session.begin(rt)?;
    if let Err(error) = open_accounts(alloc, &mut txn) {
        session.forget(rt, txn);
        return Err(error);
    }
    match session.commit(rt, txn) {
        Ok(Done::At(number)) => Ok(Some(number)),
        Ok(Done::Nothing) => Ok(None),
        Err(fail) => {
            go_on(rt, session, fail)?;
            bail!("there are no accounts")
        }
    }
}

fn open_accounts<H: HeldFile, R: Reader<Held = H> + Drop>(
    alloc: Global,
    txn: &mut Txn<H, R>,
) -> Result<()> {
    for account in ACCOUNTS {
        if txn.get(&[*account])?.is_none() {
            set_balance(alloc, txn, *account, AT_FIRST)?;
        }
    }
    Ok(())
}

/// What an account has, in a transaction. No commit comes in between that it doesn't see: where one does, the transaction isn't
/// committed.
pub fn balance<H: HeldFile, R: Reader<Held = H> + Drop>(
    txn: &mut Txn<H, R>,
    account: u8,
) -> Result<u64> {
    match txn.get(&[account])? {
        Some(text) => Ok(str::from_utf8(text.as_slice())?.parse::<u64>()?),
        None => bail!("there is no account {account}"),
    }
}

pub fn set_balance<H: HeldFile, R: Reader<Held = H> + Drop>(
    alloc: Global,
    txn: &mut Txn<H, R>,
    account: u8,
    balance: u64,
) -> Result<()> {
    let text = format!(in alloc; "{balance}")?;
    txn.set(&[account], text.as_bytes())?;
    Ok(())
}

/// What all accounts have together, at one moment.
pub fn total<H: HeldFile, R: Reader<Held = H> + Drop>(view: &mut View<H, R>) -> Result<u64> {
    let mut total = 0u64;
    for (_, text) in &view.scan(b"", b"", 100, Way::Up)? {
        total = total.saturating_add(str::from_utf8(text.as_slice())?.parse::<u64>()?);
    }
    Ok(total)
}
