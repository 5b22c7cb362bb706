//! The stock: under each fruit's name how many there are, as text.

use crate::refusals::{go_on, not_done, not_merged};
use anyhow::{Result, bail};
use std::alloc::Global;
use vlstore::{Disk, Done, Engine, HeldFile, Reader, Rows, Txn, Way};

/// How often a change is begun anew.
const TRIES: u32 = 10;

/// Counts so many more of a fruit, in a transaction.
pub fn add<H: HeldFile, R: Reader<Held = H> + Drop>(
    alloc: Global,
    txn: &mut Txn<H, R>,
    fruit: &str,
    more: u64,
) -> Result<()> {
    let had = match txn.get(fruit.as_bytes())? {
        Some(count) => str::from_utf8(count.as_slice())?.parse::<u64>()?,
        None => 0,
    };
    let Some(count) = had.checked_add(more) else {
        bail!("too many {fruit}");
    };
    let text = format!(in alloc; "{count}")?;
    txn.set(fruit.as_bytes(), text.as_bytes())?;
    Ok(())
}

/// Counts so many more of a fruit, in a transaction of its own, and gives the commit's number. Where another commit came before
/// it, or the log was full, it begins anew.
pub fn change<D: Disk>(
    alloc: Global,
    store: &mut Engine<D>,
    fruit: &str,
    more: u64,
) -> Result<u64> {
    for _ in 0..TRIES {
        let mut txn = store.begin()?;
        if let Err(error) = add(alloc, &mut txn, fruit, more) {
            store.forget(txn);
            return Err(error);
        }
        match store.commit(txn) {
            Ok(Done::At(number)) => return Ok(number),
            Ok(Done::Nothing) => bail!("nothing was written"),
            Err(fail) => go_on(store, fail)?,
        }
    }
    bail!("others always came first")
}

/// All fruits that are there, in the order of their names. Those of labels begin with `~`, and come behind.
pub fn rows<D: Disk>(store: &mut Engine<D>) -> Result<Rows> {
    let mut view = store.view()?;
    let rows = view.scan(b"", b"~", 1000, Way::Up);
    store.release(view);
    Ok(rows?)
}

/// Seals the log, so that a new one takes commits, and writes the oldest entries that wait in memory to a table, whose number it
/// gives, if any waits.
pub fn make_room<D: Disk>(store: &mut Engine<D>) -> Result<Option<u32>> {
    if let Err(fail) = store.rotate() {
        return Err(not_done(fail));
    }
    match store.flush() {
        Ok(table) => Ok(table),
        Err(fail) => Err(not_done(fail)),
    }
}

/// Merges the tables of one level, if one is due, and gives how many entries the new tables have. A service does so behind its
/// flushes, until none is due.
pub fn merge_once<D: Disk>(store: &mut Engine<D>) -> Result<Option<u64>> {
    match store.merge() {
        Ok(kept) => Ok(kept),
        Err(fail) => Err(not_merged(fail)),
    }
}

/// Writes a label anew, which is a longer text.
pub fn label<D: Disk>(
    rt: &HostRuntime,
    store: &mut Engine<D>,
    name: &str,
    letter: u8,
) -> Result<()> {
    let mut text = Vec::new(rt.alloc());
    text.resize(200, letter)?;
    let mut txn = store.begin()?;
    if let Err(fail) = txn.set(name.as_bytes(), &text) {
        store.forget(txn);
        return Err(fail.into());
    }
    match store.commit(txn) {
        Ok(_) => Ok(()),
        Err(fail) => go_on(store, fail),
    }
}
