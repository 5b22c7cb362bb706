//! How a service gets space back: from logs whose values were mostly overwritten, and from files that nothing needs any more.

use crate::refusals::{not_done, not_moved, not_picked, not_swept};
use anyhow::Result;
use std::alloc::Global;
use vlstore::{Base, Batch, Disk, Engine, MoveFail, Pass, PickFail};

/// So many batches are moved in a row at most, so that a service gets on with its work.
const MOST_BATCHES: u32 = 1000;

/// Moves the values that still count out of the log of which the greatest share is garbage, if that is at least so many per cent,
/// and gives how many were moved. A sweep removes the log once a merge has dropped what still leads into it.
pub fn collect_once<D: Disk>(
    alloc: Global,
    store: &mut Engine<D>,
    percent: u8,
) -> Result<Option<u64>> {
    let mut pass = match store.pick(percent) {
        Ok(pass) => pass,
        Err(PickFail::NoRewrite) => return Ok(None),
        Err(fail) => return Err(not_picked(fail)),
    };
    let moved = move_all(alloc, store, &mut pass);
    store.end_pass(pass);
    Ok(Some(moved?))
}

/// Removes the files that nothing needs any more, and gives how many went. A service does so behind its merges.
pub fn sweep_once<D: Disk>(store: &mut Engine<D>) -> Result<u64> {
    match store.sweep() {
        Ok(count) => Ok(count),
        Err(fail) => Err(not_swept(fail)),
    }
}

/// Moves batch after batch of a pass. What is read with is made anew for each, since a rotation may have come between.
fn move_all<D: Disk>(
    alloc: Global,
    store: &mut Engine<D>,
    pass: &mut Pass<Base<D::Held, D::Reader>, D::Held>,
) -> Result<u64> {
    let mut moved = 0u64;
    for _ in 0..MOST_BATCHES {
        let mut reader = store.reader()?;
        match pass.next(alloc, &mut reader.files, &mut reader.looks)? {
            Some(batch) => moved = moved.saturating_add(move_batch(store, pass, batch)?),
            None => return Ok(moved),
        }
    }
    Ok(moved)
}

/// Moves a batch; where the log is full, to a new one.
fn move_batch<D: Disk>(
    store: &mut Engine<D>,
    pass: &Pass<Base<D::Held, D::Reader>, D::Held>,
    batch: Batch,
) -> Result<u64> {
    let mut reader = store.reader()?;
    let batch = match store.relocate(pass, batch, &mut reader.looks) {
        Ok(count) => return Ok(u64::from(count)),
        Err(MoveFail::Full { batch, .. }) => batch,
        Err(fail) => return Err(not_moved(fail)),
    };
    if let Err(fail) = store.rotate() {
        return Err(not_done(fail));
    }
    let mut reader = store.reader()?;
    match store.relocate(pass, batch, &mut reader.looks) {
        Ok(count) => Ok(u64::from(count)),
        Err(fail) => Err(not_moved(fail)),
    }
}
