//! Numbers that are given once: four threads take them from leases of one key, and print each as it is given.

use crate::keeper::keep;
use crate::refusals::{go_on_giving, not_opened};
use anyhow::{Result, bail};
use std::alloc::{AllocError, Global};
use std::sync::Wait;
use std::thread;
use std::thread::Threads;
use vlstore::{MAX_ROOM, Sequence, Session, Silent, Store};

/// How many threads give numbers.
const GIVERS: u32 = 4;

/// How many each of them gives.
const NUMBERS: u32 = 5_000;

/// The key whose value is the least number that isn't leased yet.
const KEY: &[u8] = b"next id";

/// So many numbers are leased by one commit. What a stop leaves of a lease is given by nobody.
const LEASE: u32 = 16;

/// How often a number is asked for again.
const TRIES: u32 = 10_000;

/// Opens the store, and has each thread give its numbers.
pub fn give_ids<D: Silent + Send, R: Threads + Wait + Print + Sync>(
    rt: &R,
    alloc: Global,
    disk: D,
) -> Result<()>
where
    D::Held: Send + Sync,
    D::Reader: Send,
    D::Writer: Send,
{
    let (_store, mut sessions) = match Store::open(alloc, disk, MAX_ROOM, GIVERS) {
        Ok(opened) => opened,
        Err(fail) => return Err(not_opened(fail.why)),
    };
    // What earlier runs left in logs is written to tables.
    let Some(first) = sessions.get_mut(0) else {
        bail!("no session");
    };
    keep(rt, alloc, first)?;
    for given in give_all(rt, alloc, sessions)? {
        given?;
    }
    Ok(())
}

/// Has each thread give its numbers. That a session may go to another thread is proved here.
fn give_all<D: Silent + Send, R: Threads + Wait + Print + Sync>(
    rt: &R,
    alloc: Global,
    sessions: Vec<Session<D>>,
) -> std::result::Result<Vec<Result<()>>, AllocError>
where
    D::Held: Send + Sync,
    D::Reader: Send,
    D::Writer: Send,
{
    thread::map_vec(rt, sessions, &|session| give(rt, alloc, session))
}

/// Gives numbers, and prints each before it asks for the next. A line is one write, so those of two threads don't mix.
fn give<D: Silent, R: Wait + Print>(rt: &R, alloc: Global, session: Session<D>) -> Result<()> {
    let Ok(mut ids) = Sequence::new(alloc, session, KEY, LEASE) else {
        bail!("no memory: try again");
    };
    for _ in 0..NUMBERS {
        let id = next_id(rt, &mut ids)?;
        println!(rt; "{id}")?;
    }
    Ok(())
}

/// The next number. Where another thread took a lease at the same time, it is asked for again.
fn next_id<D: Silent, R: Wait>(rt: &R, ids: &mut Sequence<D>) -> Result<u64> {
    for _ in 0..TRIES {
        match ids.next(rt) {
            Ok(id) => return Ok(id),
            Err(fail) => go_on_giving(rt, ids, fail)?,
        }
    }
    bail!("others always came first")
}
