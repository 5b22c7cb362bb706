//! The keeper: writes tables, merges them and removes files, while others commit.

use crate::refusals::{not_done, not_merged, not_swept};
use anyhow::Result;
use std::alloc::Global;
use std::sync::Wait;
use vlstore::{Session, Silent};

/// How many rounds the keeper makes.
const ROUNDS: u64 = 10;

/// So many merges are done in a round at most.
const MOST_MERGES: u32 = 10;

/// Keeps the files in order, and gives how many rounds it made.
pub fn keep<D: Silent, R: Wait>(rt: &R, alloc: Global, session: &mut Session<D>) -> Result<u64> {
    for _ in 0..ROUNDS {
        make_room(rt, session)?;
        for _ in 0..MOST_MERGES {
            match session.merge(rt, alloc) {
                Ok(Some(_)) => {}
                Ok(None) => break,
                Err(fail) => return Err(not_merged(fail)),
            }
        }
        if let Err(fail) = session.sweep(rt) {
            return Err(not_swept(fail));
        }
    }
    Ok(ROUNDS)
}

/// Seals the log, so that a new one takes commits, and writes the oldest entries that wait in memory to a table.
pub fn make_room<D: Silent, R: Wait>(rt: &R, session: &mut Session<D>) -> Result<()> {
    if let Err(fail) = session.rotate(rt) {
        return Err(not_done(fail));
    }
    match session.flush(rt) {
        Ok(_) => Ok(()),
        Err(fail) => Err(not_done(fail)),
    }
}
