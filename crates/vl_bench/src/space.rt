//! How a full log makes room, how tables are merged, and how values are moved out of a log that is mostly garbage.

use crate::keys::Order;
use crate::laps::Laps;
use crate::work::{Work, put};
use anyhow::{Result, bail};
use vlstore::{Base, Batch, Disk, Engine, MoveFail, Pass, PickFail};

/// So many merges are done in a row at most, and so many batches moved.
const MOST: u32 = 1_000_000;

/// At least so many per cent of a log that is collected are garbage.
const GARBAGE: u8 = 30;

/// Seals the log, and writes what it has to a table.
pub fn make_room<D: Disk>(store: &mut Engine<D>) -> Result<()> {
    if store.rotate().is_err() || store.flush().is_err() {
        bail!("the log wasn't sealed, or not flushed");
    }
    Ok(())
}

/// Overwrites each second key in two halves, which aren't measured, and merges tables until no level of them is due. An entry
/// that is kept is an operation.
pub fn merge<D: Disk>(work: &Work<'_>, store: &mut Engine<D>) -> Result<()> {
    for half in 0..2 {
        make_room(store)?;
        for turn in (2 * half..work.count()).step_by(4) {
            put(store, work.key(Order::Scattered, turn), Some(&work.value))?;
        }
    }
    make_room(store)?;
    let mut laps = Laps::start(work.report, 0)?;
    for _ in 0..MOST {
        match store.merge() {
            Ok(Some(kept)) => laps.lap(kept as usize)?,
            Ok(None) => break,
            Err(_) => bail!("a merge failed"),
        }
    }
    laps.print("merge", None)
}

/// Moves what still counts out of the log that has most garbage. A record that is moved is an operation.
pub fn collect<D: Disk>(work: &Work<'_>, store: &mut Engine<D>) -> Result<()> {
    let mut laps = Laps::start(work.report, 0)?;
    match store.pick(GARBAGE) {
        Ok(mut pass) => {
            let done = move_all(work, store, &mut pass, &mut laps);
            store.end_pass(pass);
            done?;
        }
        Err(PickFail::NoRewrite) => {}
        Err(_) => bail!("no log was picked"),
    }
    laps.print("collect", None)?;
    if store.sweep().is_err() {
        bail!("needless files weren't removed");
    }
    Ok(())
}

/// Moves batch after batch of a pass.
fn move_all<D: Disk>(
    work: &Work<'_>,
    store: &mut Engine<D>,
    pass: &mut Pass<Base<D::Held, D::Reader>, D::Held>,
    laps: &mut Laps<'_>,
) -> Result<()> {
    let alloc = work.report.rt.alloc();
    for _ in 0..MOST {
        let mut reader = store.reader()?;
        let Some(batch) = pass.next(alloc, &mut reader.files, &mut reader.looks)? else {
            break;
        };
        let moved = move_batch(store, pass, batch)?;
        laps.lap(moved as usize)?;
    }
    Ok(())
}

/// Moves a batch; where the log is full, to a new one.
fn move_batch<D: Disk>(
    store: &mut Engine<D>,
    pass: &Pass<Base<D::Held, D::Reader>, D::Held>,
    batch: Batch,
) -> Result<u32> {
    let mut reader = store.reader()?;
    let batch = match store.relocate(pass, batch, &mut reader.looks) {
        Ok(count) => return Ok(count),
        Err(MoveFail::Full { batch, .. }) => batch,
        Err(_) => bail!("a batch wasn't moved"),
    };
    make_room(store)?;
    let mut reader = store.reader()?;
    match store.relocate(pass, batch, &mut reader.looks) {
        Ok(count) => Ok(count),
        Err(_) => bail!("a batch wasn't moved"),
    }
}
