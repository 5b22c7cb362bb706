//! What is done with each key.

use crate::keys::{Order, keys};
use crate::laps::{Laps, Report};
use crate::space::make_room;
use anyhow::{Result, bail};
use vlstore::{Cached, CommitFail, Disk, Engine, Txn, View, Way};

/// So few keys are read again and again where reads are to be warm.
const WARM: usize = 4;

/// What a store over such a disk gives to write with.
type TxnOf<D> = Txn<<D as Disk>::Held, Cached<<D as Disk>::Reader>>;

/// What it gives to read with.
pub type ViewOf<D> = View<<D as Disk>::Held, Cached<<D as Disk>::Reader>>;

/// What work is done on: the keys in rising order, and the value that is written to them.
#[derive(Drop)]
pub struct Work<'a> {
    pub report: Report<'a>,
    keys: Vec<Vec<u8>>,
    pub value: Vec<u8>,
}

impl<'a> Work<'a> {
    pub fn new(report: Report<'a>, spelling: &str, count: u64) -> Result<Self> {
        let alloc = report.rt.alloc();
        let mut value = Vec::new(alloc);
        value.resize(report.bytes, 118)?;
        Ok(Work {
            report,
            keys: keys(alloc, spelling, count)?,
            value,
        })
    }

    /// How many keys there are.
    pub fn count(&self) -> usize {
        self.keys.len()
    }

    /// The key that comes at this turn.
    pub fn key(&self, order: Order, turn: usize) -> &[u8] {
        match self.keys.get(order.at(turn, self.count())) {
            Some(key) => key,
            None => &[],
        }
    }

    /// Writes a value to each key, or deletes each, in a transaction of its own.
    pub fn write<D: Disk>(
        &self,
        work: &str,
        store: &mut Engine<D>,
        order: Order,
        value: Option<&Vec<u8>>,
    ) -> Result<()> {
        let mut laps = Laps::start(self.report, self.count())?;
        for turn in 0..self.count() {
            put(store, self.key(order, turn), value)?;
            laps.lap(1)?;
        }
        laps.print(work, Some(order))
    }

    /// Reads each key in a view.
    pub fn get<D: Disk>(&self, work: &str, view: &mut ViewOf<D>, order: Order) -> Result<()> {
        let mut laps = Laps::start(self.report, self.count())?;
        for turn in 0..self.count() {
            get::<D>(view, self.key(order, turn))?;
            laps.lap(1)?;
        }
        laps.print(work, Some(order))
    }

    /// Reads a few keys again and again in a view, which keeps the blocks that it has read.
    pub fn get_warm<D: Disk>(&self, view: &mut ViewOf<D>) -> Result<()> {
        let mut laps = Laps::start(self.report, self.count())?;
        for turn in 0..self.count() {
            get::<D>(view, self.key(Order::Scattered, turn % WARM))?;
            laps.lap(1)?;
        }
        laps.print("get_warm", Some(Order::Scattered))
    }

    /// Reads each key in a view of its own, which has read no block before.
    pub fn get_cold<D: Disk>(&self, store: &mut Engine<D>) -> Result<()> {
        let mut laps = Laps::start(self.report, self.count())?;
        for turn in 0..self.count() {
            let mut view = store.view()?;
            let done = get::<D>(&mut view, self.key(Order::Scattered, turn));
            store.release(view);
            done?;
            laps.lap(1)?;
        }
        laps.print("get_cold", Some(Order::Scattered))
    }

    /// Reads up to so many rows at a time in a view, from each key on that comes so many behind the last. A row is an
    /// operation.
    pub fn scan<D: Disk>(
        &self,
        work: &str,
        view: &mut ViewOf<D>,
        order: Order,
        rows: u16,
    ) -> Result<()> {
        let mut laps = Laps::start(self.report, self.count())?;
        for turn in (0..self.count()).step_by((rows as usize).max(1)) {
            let count = view
                .scan(self.key(order, turn), b"", rows.max(1), Way::Up)?
                .len();
            laps.lap(count)?;
        }
        laps.print(work, Some(order))
    }
}

/// Writes a key, or deletes it, in a transaction of its own.
pub fn put<D: Disk>(store: &mut Engine<D>, key: &[u8], value: Option<&Vec<u8>>) -> Result<()> {
    let mut txn = store.begin()?;
    if let Err(error) = change::<D>(&mut txn, key, value) {
        store.forget(txn);
        return Err(error);
    }
    match store.commit(txn) {
        Ok(_) => Ok(()),
        Err(CommitFail::Full { txn, .. }) => commit_again(store, txn),
        Err(_) => bail!("a commit failed"),
    }
}

fn change<D: Disk>(txn: &mut TxnOf<D>, key: &[u8], value: Option<&Vec<u8>>) -> Result<()> {
    match value {
        Some(value) => txn.set(key, value)?,
        None => txn.delete(key)?,
    }
    Ok(())
}

/// Commits a transaction for which the log was too full.
fn commit_again<D: Disk>(store: &mut Engine<D>, txn: TxnOf<D>) -> Result<()> {
    if let Err(error) = make_room(store) {
        store.forget(txn);
        return Err(error);
    }
    match store.commit(txn) {
        Ok(_) => Ok(()),
        Err(_) => bail!("a commit failed"),
    }
}

/// Reads a key, which is to have a value.
fn get<D: Disk>(view: &mut ViewOf<D>, key: &[u8]) -> Result<()> {
    if view.get(key)?.is_none() {
        bail!("a key has no value");
    }
    Ok(())
}
