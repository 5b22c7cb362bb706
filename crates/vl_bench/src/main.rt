//! Measures the embedded store: how long its calls take over a folder, with so many keys and so many bytes in each value. The
//! first fill goes through the keys in rising order, or scattered. A log that is full, of ROOM bytes, is sealed, and its
//! entries are written to a table.
//!
//! Each commit is synced. What a sync costs is the folder's: one on a disk waits for it, and one in memory (/dev/shm) doesn't,
//! so a run there leaves the disk out.
//!
//! It prints a line of JSON for each kind of work: how many operations it did, and how many of them it makes in a second; the
//! microseconds of the processor that one took; within how many microseconds 50, 95 and 99 of 100 were done; how many bytes
//! the process wrote meanwhile (Linux tells them), and how many the files have behind it. With the word `counts` it does the
//! same work, and prints no more than the counts.
#![tactic(auto)]

mod bytes;
mod keys;
mod laps;
mod space;
mod work;

use crate::keys::Order;
use crate::laps::{Laps, Report};
use crate::space::{collect, make_room, merge};
use crate::work::{ViewOf, Work};
use anyhow::{Result, bail};
use std::env;
use vlstore::{Disk, Engine, FolderDisk, MAX_ROOM};

/// So often the store is opened.
const OPENINGS: usize = 5;

fn main(rt: HostRuntime) -> Result<()> {
    let mut words = env::args(&rt)?;
    words.next();
    let words: Vec<String> = words.collect(rt.alloc())?;
    let [folder, order, spelling, count, bytes, room, more @ ..] = words.as_slice() else {
        println!(rt; "usage: vl_bench DIR rising|scattered digits|bytes KEYS BYTES ROOM [counts]")?;
        return Ok(());
    };
    let report = Report {
        rt: &rt,
        folder: folder.as_str(),
        bytes: bytes.parse()?,
        timed: more.is_empty(),
    };
    let work = Work::new(report, spelling, count.parse()?)?;
    let (order, room) = (Order::named(order)?, room.parse()?);
    fill_new(&work, order, room)?;
    open_again(&work, room)?;
    go_on_with(&work, room)
}

/// Fills a new store.
fn fill_new(work: &Work<'_>, order: Order, room: u64) -> Result<()> {
    let mut store = open(work.report, room)?;
    let done = fill(work, &mut store, order);
    drop(store.close());
    done
}

/// Does all other work over the store when it was opened again, so that what was filled in stands in tables.
fn go_on_with(work: &Work<'_>, room: u64) -> Result<()> {
    let mut store = open(work.report, room)?;
    let done = go_on(work, &mut store);
    drop(store.close());
    done
}

/// Fills a store, and reads from it while the last log's entries are in memory.
fn fill<D: Disk>(work: &Work<'_>, store: &mut Engine<D>, order: Order) -> Result<()> {
    work.write("fill", store, order, Some(&work.value))?;
    read(work, store, ["get", "range", "scan"])?;
    make_room(store)
}

/// Reads from tables, and overwrites, merges, collects and deletes.
fn go_on<D: Disk>(work: &Work<'_>, store: &mut Engine<D>) -> Result<()> {
    work.get_cold(store)?;
    read_warm(work, store)?;
    read(work, store, ["get_table", "range_table", "scan_table"])?;
    work.write("overwrite", store, Order::Scattered, Some(&work.value))?;
    merge(work, store)?;
    collect(work, store)?;
    work.write("delete", store, Order::Scattered, None)
}

/// Reads keys, a hundred rows at a time, and a thousand, in a view.
fn read<D: Disk>(work: &Work<'_>, store: &mut Engine<D>, names: [&str; 3]) -> Result<()> {
    let mut view = store.view()?;
    let done = read_in::<D>(work, &mut view, names);
    store.release(view);
    done
}

fn read_in<D: Disk>(work: &Work<'_>, view: &mut ViewOf<D>, names: [&str; 3]) -> Result<()> {
    let [get, range, scan] = names;
    work.get::<D>(get, view, Order::Rising)?;
    work.get::<D>(get, view, Order::Scattered)?;
    work.scan::<D>(range, view, Order::Scattered, 100)?;
    work.scan::<D>(scan, view, Order::Rising, 1000)
}

/// Reads a few keys in a view, often.
fn read_warm<D: Disk>(work: &Work<'_>, store: &mut Engine<D>) -> Result<()> {
    let mut view = store.view()?;
    let done = work.get_warm::<D>(&mut view);
    store.release(view);
    done
}

/// Opens and closes the store some times.
fn open_again(work: &Work<'_>, room: u64) -> Result<()> {
    let mut laps = Laps::start(work.report, OPENINGS)?;
    for _ in 0..OPENINGS {
        drop(open(work.report, room)?.close());
        laps.lap(1)?;
    }
    laps.print("open", None)
}

/// Opens the store, whose logs may have so many bytes.
fn open(report: Report<'_>, room: u64) -> Result<Engine<FolderDisk<&HostRuntime>>> {
    let (rt, alloc) = (report.rt, report.rt.alloc());
    let disk = FolderDisk::new(rt, alloc, String::from_str(alloc, report.folder)?);
    match Engine::open(alloc, disk, room.min(MAX_ROOM)) {
        Ok(store) => Ok(store),
        Err(fail) => bail!("the store wasn't opened: {:?}", fail.why),
    }
}
