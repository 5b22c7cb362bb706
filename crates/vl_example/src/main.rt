//! A shop's stock in a store: what a service does with the calls of `vlstore`. The program is given a folder, and prints what it
//! did.
#![tactic(auto)]

mod refusals;
mod space;
mod stock;

use crate::refusals::{go_on, not_opened};
use crate::space::{collect_once, sweep_once};
use crate::stock::{add, change, label, make_room, merge_once, rows};
use anyhow::{Result, bail};
use std::env;
use vlstore::{CommitFail, Disk, Engine, FolderDisk, MAX_ROOM};

/// The store in a folder.
type Store<'a> = Engine<FolderDisk<&'a HostRuntime>>;

/// So many merges are done in a row at most, so that a service gets on with its work.
const MOST_MERGES: u32 = 10;

fn main(rt: HostRuntime) -> Result<()> {
    let alloc = rt.alloc();
    let mut store = open(&rt)?;
    println!(rt; "opened at {}", store.number())?;

    // Each change is a transaction of its own.
    let number = change(alloc, &mut store, "apples", 3)?;
    println!(rt; "3 apples came, by commit {number}")?;
    let number = change(alloc, &mut store, "pears", 5)?;
    println!(rt; "5 pears came, by commit {number}")?;

    overtake(&rt, &mut store)?;
    print_stock(&rt, &mut store)?;

    // What is in a table needs no memory, and is there at once when the store is opened again.
    if let Some(number) = make_room(&mut store)? {
        println!(rt; "written to table {number}")?;
    }

    // Many small tables are merged into one, which has what is still read of each key.
    for more in 1..=3 {
        let number = change(alloc, &mut store, "apples", more)?;
        println!(rt; "{more} apples came, by commit {number}")?;
        make_room(&mut store)?;
    }
    while_due(&rt, &mut store)?;

    // Longer values stand in logs. Where most of a log was overwritten, what still counts moves out of it.
    label(&rt, &mut store, "~pears", b'p')?;
    for letter in [b'a', b'b', b'c', b'd'] {
        label(&rt, &mut store, "~apples", letter)?;
        make_room(&mut store)?;
    }
    while_due(&rt, &mut store)?;
    match collect_once(alloc, &mut store, 50)? {
        Some(moved) => println!(rt; "a log is mostly garbage: {moved} of its values were moved")?,
        None => println!(rt; "no log is mostly garbage")?,
    }

    // The folder is free for the next store once its disk is gone.
    drop(store.close());
    let mut store = open(&rt)?;
    println!(rt; "opened again at {}", store.number())?;
    print_stock(&rt, &mut store)
}

/// Opens the store in the folder that the first word names.
fn open(rt: &HostRuntime) -> Result<Store<'_>> {
    let Some(folder) = env::args(rt)?.nth(1) else {
        bail!("usage: vl_example DIR");
    };
    let disk = FolderDisk::new(rt, rt.alloc(), folder);
    match Engine::open(rt.alloc(), disk, MAX_ROOM) {
        Ok(store) => Ok(store),
        Err(fail) => Err(not_opened(fail.why)),
    }
}

/// Begins a transaction on the apples, and lets another change them before it commits.
fn overtake<D: Disk>(rt: &HostRuntime, store: &mut Engine<D>) -> Result<()> {
    let alloc = rt.alloc();
    let mut slow = store.begin()?;
    if let Err(error) = add(alloc, &mut slow, "apples", 10) {
        store.forget(slow);
        return Err(error);
    }
    let number = change(alloc, store, "apples", 4)?;
    println!(rt; "4 apples came, by commit {number}")?;
    match store.commit(slow) {
        Err(CommitFail::Conflict { key, number }) => {
            let fruit = str::from_utf8(key.as_slice())?;
            println!(rt; "10 apples came too late: commit {number} changed {fruit}")?;
        }
        Err(fail) => {
            go_on(store, fail)?;
            bail!("no conflict was found")
        }
        Ok(_) => bail!("no conflict was found"),
    }
    let number = change(alloc, store, "apples", 10)?;
    println!(rt; "so they were counted anew, by commit {number}")?;
    Ok(())
}

/// Merges tables until no level of them is due, and removes the files that are needless then.
fn while_due<D: Disk>(rt: &HostRuntime, store: &mut Engine<D>) -> Result<()> {
    for _ in 0..MOST_MERGES {
        let Some(kept) = merge_once(store)? else {
            break;
        };
        println!(rt; "tables were merged, which keeps {kept} entries")?;
    }
    let count = sweep_once(store)?;
    println!(rt; "{count} needless files were removed")?;
    Ok(())
}

fn print_stock<D: Disk>(rt: &HostRuntime, store: &mut Engine<D>) -> Result<()> {
    for (fruit, count) in &rows(store)? {
        let fruit = str::from_utf8(fruit.as_slice())?;
        let count = str::from_utf8(count.as_slice())?;
        println!(rt; "{fruit}: {count}")?;
    }
    Ok(())
}
