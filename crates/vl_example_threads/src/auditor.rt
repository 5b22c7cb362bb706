//! The auditor: adds up all accounts in a view, again and again, while others transfer.

use crate::accounts::total;
use anyhow::{Result, bail};
use std::sync::Wait;
use vlstore::{Session, Silent};

/// How often the auditor adds up.
const SUMS: u64 = 50;

/// Finds the same total each time, and gives how often that was.
pub fn audit<D: Silent, R: Wait>(rt: &R, session: &mut Session<D>) -> Result<u64> {
    let mut first = None;
    for _ in 0..SUMS {
        let mut view = session.view(rt)?;
        let found = total(&mut view);
        session.release(rt, view);
        let found = found?;
        if *first.get_or_insert(found) != found {
            bail!("the accounts had {found} in all at one moment");
        }
    }
    Ok(SUMS)
}
