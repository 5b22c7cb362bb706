//! What a refusal of the store means to a service of several threads.

use crate::keeper::make_room;
use anyhow::{Error, Result, anyhow};
use std::sync::Wait;
use vlstore::{
    Cached, CommitFail, MergeFail, OpenError, SeqFail, Sequence, Session, Silent, StepFail,
    SweepFail,
};

/// Why the store wasn't opened, and what may be done.
pub fn not_opened(why: OpenError) -> Error {
    match why {
        OpenError::NotAStore => anyhow!("another's files stand there: name another folder"),
        OpenError::NewerFormat(format) => anyhow!("format {format}: take a newer program"),
        OpenError::Damaged { name, place } => {
            anyhow!("{name:?} is damaged at {place}: restore a backup")
        }
        OpenError::Exhausted(counter) => anyhow!("no number is left: {counter:?}"),
        OpenError::NoMemory => anyhow!("no memory: try again"),
        OpenError::Disk { name } => anyhow!("the disk failed at {name:?}: mend it, and open again"),
    }
}

/// Does what a refusal of a commit asks for, so that the change can begin anew; or says why it can't. A transaction that was handed
/// back is given up.
pub fn go_on<D: Silent, R: Wait>(
    rt: &R,
    session: &mut Session<D>,
    fail: CommitFail<D::Held, Cached<D::Reader>>,
) -> Result<()> {
    match fail {
        CommitFail::Conflict { .. } => Ok(()),
        CommitFail::Full { txn, .. } => {
            session.forget(rt, txn);
            make_room(rt, session)
        }
        CommitFail::Halted { name } => Err(anyhow!("the disk failed at {name:?}: open again")),
        CommitFail::Disk { name } => Err(anyhow!("the disk failed at {name:?}: open again")),
        CommitFail::Exhausted(txn) => {
            session.forget(rt, txn);
            Err(anyhow!("no commit number is left"))
        }
        CommitFail::NoMemory(txn) => {
            session.forget(rt, txn);
            Err(anyhow!("no memory: try again"))
        }
    }
}

/// Does what a refusal of a number asks for, so that it can be asked for again; or says why it can't.
pub fn go_on_giving<D: Silent, R: Wait>(
    rt: &R,
    ids: &mut Sequence<D>,
    fail: SeqFail,
) -> Result<()> {
    match fail {
        SeqFail::Raced { .. } => Ok(()),
        SeqFail::Full { .. } => match ids.rotate(rt) {
            Ok(_) => Ok(()),
            Err(fail) => Err(not_done(fail)),
        },
        SeqFail::TooMany => Err(anyhow!("1,024 transactions and views live: end some")),
        SeqFail::Spent => Err(anyhow!("no number is left: take another key")),
        SeqFail::Malformed { len } => Err(anyhow!(
            "the key has {len} bytes, which no sequence wrote: take another key"
        )),
        SeqFail::Exhausted(counter) => Err(anyhow!("no number is left: {counter:?}")),
        SeqFail::Halted { .. } | SeqFail::Disk { .. } => {
            Err(anyhow!("the disk failed: open again"))
        }
        SeqFail::Damaged { place, .. } => {
            Err(anyhow!("a file is damaged at {place}: restore a backup"))
        }
        SeqFail::NoMemory => Err(anyhow!("no memory: try again")),
    }
}

/// Why a log wasn't sealed, or no table was written, and what may be done.
pub fn not_done(fail: StepFail) -> Error {
    match fail {
        StepFail::Halted { name } => anyhow!("the disk failed at {name:?}: open again"),
        StepFail::Disk { name } => anyhow!("the disk failed at {name:?}: open again"),
        StepFail::Exhausted(counter) => anyhow!("no number is left: {counter:?}"),
        StepFail::NoMemory => anyhow!("no memory: try again"),
    }
}

/// Why no tables were merged, and what may be done. The tables stand as before, and the store goes on unless it is halted.
pub fn not_merged(fail: MergeFail) -> Error {
    match fail {
        MergeFail::Halted { name } => anyhow!("the disk failed at {name:?}: open again"),
        MergeFail::Disk { name } => anyhow!(
            "the disk failed at {name:?}: mend it, and merge again"
        ),
        MergeFail::Damaged { name, place } => {
            anyhow!("{name:?} is damaged at {place}: restore a backup")
        }
        MergeFail::Exhausted(counter) => anyhow!("no number is left: {counter:?}"),
        MergeFail::Raced => anyhow!("a record was moved meanwhile: merge again"),
        MergeFail::NoMemory => anyhow!("no memory: try again"),
    }
}

/// Why not all files were removed that could go, and what may be done.
pub fn not_swept(fail: SweepFail) -> Error {
    match fail {
        SweepFail::Halted { name } => anyhow!("the disk failed at {name:?}: open again"),
        SweepFail::Disk { name } => anyhow!("the disk failed at {name:?}: open again"),
    }
}
