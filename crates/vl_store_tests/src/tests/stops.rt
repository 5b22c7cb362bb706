//! A value that is moved, its log and table, which then go, and what is flushed behind them: each call that changes the disk is
//! the last one before a stop. What the stop leaves is opened, and stopped again.

use crate::tests::halts::holds;
use crate::tests::stores::outcome_of;
use crate::tests::tables::{LONG, SWEPT};
use std::alloc::Global;
use std::test::Fail;
use vl_mem::{MemDisk, Outcome};

/// How many calls change the disk.
const CALLS: u64 = 30;

/// The commit's append.
const APPEND: u64 = 7;

/// The status of a run of which so many of these calls pass, and its disk.
fn stopped(alloc: Global, input: &str, stop: u64) -> Result<(u8, MemDisk), Fail> {
    let mut disk = MemDisk::new(alloc, Vec::new(alloc), Vec::new(alloc));
    disk.stop_after(stop);
    let (status, _, disk) = outcome_of(alloc, input, disk)?;
    Ok((status, disk))
}

/// Whether what a crash behind a stop leaves is opened with the commit, or without it where its frame isn't there; and the same
/// behind a second crash.
fn leaves(
    alloc: Global,
    input: &str,
    stop: u64,
    first: Outcome,
    second: Outcome,
) -> Result<bool, Fail> {
    let (status, disk) = stopped(alloc, input, stop)?;
    let is_there = stop > APPEND || (stop == APPEND && matches!(first, Outcome::Kept));
    let Some(disk) = holds(alloc, disk.crash(first)?, is_there) else {
        return Ok(false);
    };
    let is_left = holds(alloc, disk.crash(second)?, is_there).is_some();
    Ok(is_left && status == (if stop < CALLS { 3 } else { 0 }))
}

#[test]
fn a_stop_at_each_call_leaves_the_same_for_good(rt: HostRuntime) -> Result<(), Fail> {
    let input = SWEPT.replace(rt.alloc(), "A", LONG)?;
    for stop in 0..=CALLS {
        for first in [Outcome::Lost, Outcome::Kept, Outcome::Halved] {
            for second in [Outcome::Lost, Outcome::Kept, Outcome::Halved] {
                assert!(rt;
                    leaves(rt.alloc(), input.as_str(), stop, first, second)?,
                    "stop {stop}"
                );
            }
        }
    }
    Ok(())
}
