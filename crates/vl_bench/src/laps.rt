//! How long each of many operations took, and what they wrote.

use crate::bytes::{on_disk, written};
use crate::keys::Order;
use anyhow::Result;
use std::time::{CpuClock, Duration, Instant};

/// The store's folder, how many bytes a value has, and whether more than counts is printed.
#[derive(Clone, Copy)]
pub struct Report<'a> {
    pub rt: &'a HostRuntime,
    pub folder: &'a str,
    pub bytes: usize,
    pub timed: bool,
}

/// The times of operations, one behind the other.
#[derive(Drop)]
pub struct Laps<'a> {
    report: Report<'a>,
    operations: usize,
    // The nanoseconds of an operation in each lap, and of all laps.
    nanos: Vec<u64>,
    total: u128,
    last: Instant,
    // Of the process, when the first lap began.
    cpu: Duration,
    written: Option<u64>,
}

impl<'a> Laps<'a> {
    /// Room for so many laps, of which the first begins now.
    pub fn start(report: Report<'a>, count: usize) -> Result<Self> {
        let mut nanos = Vec::new(report.rt.alloc());
        nanos.reserve(count)?;
        Ok(Laps {
            report,
            operations: 0,
            nanos,
            total: 0,
            written: written(report.rt),
            cpu: report.rt.process_cpu_time()?,
            last: Instant::now(report.rt)?,
        })
    }

    /// So many operations have ended, which took the same time each, and the next begins.
    pub fn lap(&mut self, count: usize) -> Result<()> {
        let now = Instant::now(self.report.rt)?;
        let took = now.saturating_duration_since(self.last).as_nanos();
        let each = took / count.max(1) as u128;
        self.nanos.push(each.min(u64::MAX as u128) as u64)?;
        self.total = self.total.saturating_add(took);
        self.operations = self.operations.saturating_add(count);
        self.last = now;
        Ok(())
    }

    /// Prints what some work took, and in which order it went through the keys.
    pub fn print(self, work: &str, order: Option<Order>) -> Result<()> {
        let (rt, bytes, operations) = (self.report.rt, self.report.bytes, self.operations);
        print!(rt; "{{\"work\":\"{work}\"")?;
        if let Some(order) = order {
            print!(rt; ",\"order\":\"{order:?}\"")?;
        }
        print!(rt; ",\"bytes\":{bytes},\"operations\":{operations}")?;
        if self.report.timed {
            self.print_times()?;
        }
        println!(rt; "}}")?;
        Ok(())
    }

    fn print_times(self) -> Result<()> {
        let (rt, mut nanos) = (self.report.rt, self.nanos);
        let operations = self.operations as u128;
        let cpu = rt.process_cpu_time()?.saturating_sub(self.cpu).as_nanos();
        let cpu = cpu / operations.max(1);
        let per_second = operations * 1_000_000_000 / self.total.max(1);
        print!(rt; ",\"per_second\":{per_second}")?;
        print!(rt; ",\"cpu_us\":{}.{:03}", cpu / 1000, cpu % 1000)?;
        nanos.sort_unstable();
        for part in [50, 95, 99] {
            let took = within(&nanos, part);
            print!(rt; ",\"p{part}_us\":{}.{:03}", took / 1000, took % 1000)?;
        }
        if let (Some(before), Some(now)) = (self.written, written(rt)) {
            print!(rt; ",\"written\":{}", now.saturating_sub(before))?;
        }
        print!(rt; ",\"on_disk\":{}", on_disk(rt, self.report.folder)?)?;
        Ok(())
    }
}

/// Within how many nanoseconds so many of 100 were done.
fn within(nanos: &[u64], part: usize) -> u64 {
    match nanos.get(nanos.len().saturating_mul(part) / 100) {
        Some(took) => *took,
        None => 0,
    }
}
