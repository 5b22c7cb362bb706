//! Accounts in a store that several threads use: tellers transfer money, a keeper writes tables and merges them meanwhile, and an
//! auditor adds up what there is. The program is given a folder, and prints what came of it. Behind the folder's name it takes the
//! word `ids`: then threads give numbers instead, each once, whatever runs of the program were stopped before.
#![tactic(auto)]

mod accounts;
mod auditor;
mod ids;
mod keeper;
mod refusals;
mod teller;

use crate::accounts::{fill, total};
use crate::auditor::audit;
use crate::ids::give_ids;
use crate::keeper::keep;
use crate::refusals::not_opened;
use crate::teller::work;
use anyhow::{Result, bail};
use std::alloc::{AllocError, Global};
use std::sync::Wait;
use std::thread::Threads;
use std::{env, thread};
use vlstore::{Engine, FolderDisk, MAX_ROOM, Session, Silent, Store};

/// How many threads transfer.
const TELLERS: u32 = 4;

/// What one thread does.
#[derive(Drop)]
enum Role {
    Teller(u32),
    Keeper,
    Auditor,
}

fn main(rt: HostRuntime) -> Result<()> {
    let alloc = rt.alloc();
    let mut words = env::args(&rt)?;
    let (Some(folder), mode) = (words.nth(1), words.next()) else {
        bail!("usage: vl_example_threads DIR [ids]");
    };
    let disk = FolderDisk::new(&rt, alloc, folder);
    if mode.is_some_and(|word| word.as_str() == "ids") {
        return give_ids(&rt, alloc, disk);
    }
    for line in &serve(&rt, alloc, disk)? {
        println!(rt; "{line}")?;
    }
    Ok(())
}

/// Opens the store, and has each thread play its role. It gives a line for each thing that was done.
fn serve<D: Silent + Send, R: Threads + Wait + Sync>(
    rt: &R,
    alloc: Global,
    disk: D,
) -> Result<Vec<String>>
where
    D::Held: Send + Sync,
    D::Reader: Send,
    D::Writer: Send,
{
    // A session for each thread.
    let (store, mut sessions) = match Store::open(alloc, disk, MAX_ROOM, TELLERS + 2) {
        Ok(opened) => opened,
        Err(fail) => return Err(not_opened(fail.why)),
    };
    let opened = open_accounts(rt, alloc, &mut sessions)?;

    // Each session goes to its thread, which works beside the others until it is done.
    let parts = with_roles(alloc, sessions)?;
    let played = play_all(rt, alloc, parts)?;

    // No session is left, so the engine is for one thread again.
    let Ok(engine) = store.into_engine(rt) else {
        bail!("a session is left");
    };
    let summed = sum_up(alloc, engine)?;
    in_order(alloc, opened, played, summed)
}

/// Opens the accounts where there are none.
fn open_accounts<D: Silent, R: Wait>(
    rt: &R,
    alloc: Global,
    sessions: &mut Vec<Session<D>>,
) -> Result<String> {
    let Some(first) = sessions.get_mut(0) else {
        bail!("no session");
    };
    Ok(match fill(rt, alloc, first)? {
        Some(number) => format!(in alloc; "accounts were opened by commit {number}")?,
        None => format!(in alloc; "there are accounts already")?,
    })
}

/// The sessions with what their threads do.
fn with_roles<D: Silent>(
    alloc: Global,
    sessions: Vec<Session<D>>,
) -> std::result::Result<Vec<(Role, Session<D>)>, AllocError> {
    let mut parts = Vec::new(alloc);
    for (n, session) in (0..TELLERS + 2).zip(sessions) {
        parts.push((role_of(n), session))?;
    }
    Ok(parts)
}

/// What the accounts have in all.
fn sum_up<D: Silent>(alloc: Global, mut engine: Engine<D>) -> Result<String> {
    let mut view = engine.view()?;
    let total = total(&mut view);
    engine.release(view);
    let (total, number) = (total?, engine.number());
    Ok(format!(in alloc; "the accounts have {total} in all, behind commit {number}")?)
}

fn in_order(
    alloc: Global,
    opened: String,
    played: Vec<Result<String>>,
    summed: String,
) -> Result<Vec<String>> {
    let mut lines = vec![in alloc; opened]?;
    for line in played {
        lines.push(line?)?;
    }
    lines.push(summed)?;
    Ok(lines)
}

fn role_of(n: u32) -> Role {
    match n {
        TELLERS => Role::Keeper,
        n if n < TELLERS => Role::Teller(n),
        _ => Role::Auditor,
    }
}

/// Has each thread play its role with its session. That a session may go to another thread is proved here.
fn play_all<D: Silent + Send, R: Threads + Wait + Sync>(
    rt: &R,
    alloc: Global,
    parts: Vec<(Role, Session<D>)>,
) -> std::result::Result<Vec<Result<String>>, AllocError>
where
    D::Held: Send + Sync,
    D::Reader: Send,
    D::Writer: Send,
{
    thread::map_vec(rt, parts, &|(role, session)| play(rt, alloc, role, session))
}

/// Does what one thread does, with its session, and tells what came of it.
fn play<D: Silent, R: Wait>(
    rt: &R,
    alloc: Global,
    role: Role,
    mut session: Session<D>,
) -> Result<String> {
    Ok(match role {
        Role::Teller(n) => {
            let made = work(rt, alloc, &mut session, n)?;
            format!(in alloc; "teller {n} made {made} transfers")?
        }
        Role::Keeper => {
            let made = keep(rt, alloc, &mut session)?;
            format!(in alloc; "the keeper made {made} rounds")?
        }
        Role::Auditor => {
            let made = audit(rt, &mut session)?;
            format!(in alloc; "the auditor found the same total {made} times")?
        }
    })
}
