//! Commits of transactions that have writes.
ghost use Rattle.std.specs.Prelude.{◌≢◌, ◌+◌, [], ℕ, List, IfErr, IfOk, OnErr, OnOk};
ghost use Rattle.std.specs.FinMap.{entries};
ghost use Rattle.vl_drive.specs.Answers.{asked, is_step_fault};
ghost use Rattle.vl_drive.specs.Knowing.{GoesOn, IsCounted, IsOwnTicket, Knows};
ghost use Rattle.vl_drive.specs.Modest.{IsBusy, IsIdle, IsModest};
ghost use Rattle.vl_drive.specs.Playing.{HasAll, HasEnded, HasTried, IsTrouble, StaysModest};
ghost use Rattle.vl_model.specs.History.{History};
ghost use Rattle.vl_model.specs.Reads.{Read};

use crate::fails::{CommitFail, Done, StepFail};
use crate::shop::Shop;
use crate::trouble::{Cause, Trouble};
use std::sync::Wait;

// What one try of a commit came to: whether it was done, where it ended, or the transaction again.
#[derive(Drop)]
pub(crate) enum Tried<T: Drop> {
    Ended { committed: bool },
    Again { txn: T },
}

// Commits, and says whether it was done; else it met a conflict. Where the active log is full it is sealed, and the
// commit tried again.
pub(crate) fn commit<R: Wait, S: Shop>(rt: &R, shop: &mut S, txn: S::Txn) -> Result<bool, Trouble>
    requires all { HasAll (S.knows shop.old) }
    requires own { IsOwnTicket (S.knows shop.old) (S.ticket txn) (S.number txn) }
    requires writes { entries (S.writes txn) ≢ [] }
    requires sees { (h : History) × (reads : List Read) × S.sees txn h reads }
    ensures on { GoesOn (S.knows shop.old) (S.knows shop.new) }
    ensures ended { (h : History) (reads : List Read) → S.sees txn h reads → IfOk result (λ committed.
        HasEnded (asked (S.ticket txn) (S.number txn) reads (entries (S.writes txn))) committed
        (S.knows shop.old) (S.knows shop.new)) }
    ensures idle { (turns : ℕ) → IsBusy (S.ticket txn) (S.number txn) turns (S.knows shop.old)
        → OnOk result (IsIdle (turns + 1) (S.knows shop.new)) }
    ensures modest { (turns : ℕ) → IsBusy (S.ticket txn) (S.number txn) turns (S.knows shop.old)
        → OnErr result (IsModest turns (S.knows shop.new)) }
    ensures trouble { IfErr result (IsTrouble (S.knows shop.old) (S.knows shop.new)) }
{
    let mut txn = txn;
    for _ in rt.forever() {
        match try_commit(rt, shop, txn)? {
            Tried::Ended { committed } => return Ok(committed),
            Tried::Again { txn: back } => txn = back,
        }
    }
    unreachable!()
}

// Tries once. Where the active log is full it is sealed, and the transaction comes back.
fn try_commit<R: Wait, S: Shop>(rt: &R, shop: &mut S, txn: S::Txn) -> Result<Tried<S::Txn>, Trouble>
    requires all { HasAll (S.knows shop.old) }
    requires own { IsOwnTicket (S.knows shop.old) (S.ticket txn) (S.number txn) }
    requires writes { entries (S.writes txn) ≢ [] }
    requires sees { (h : History) × (reads : List Read) × S.sees txn h reads }
    ensures on { GoesOn (S.knows shop.old) (S.knows shop.new) }
    ensures tried { (h : History) (reads : List Read) → S.sees txn h reads → IfOk result
        (HasTried txn (asked (S.ticket txn) (S.number txn) reads (entries (S.writes txn)))
        (S.knows shop.old) (S.knows shop.new)) }
    ensures stays { (turns : ℕ) → IsBusy (S.ticket txn) (S.number txn) turns (S.knows shop.old)
        → IfOk result (StaysModest (S.ticket txn) (S.number txn) turns (S.knows shop.new)) }
    ensures modest { (turns : ℕ) → IsBusy (S.ticket txn) (S.number txn) turns (S.knows shop.old)
        → OnErr result (IsModest turns (S.knows shop.new)) }
    ensures trouble { IfErr result (IsTrouble (S.knows shop.old) (S.knows shop.new)) }
{
    let txn = match shop.commit(rt, txn) {
        Ok(Done::At(_) | Done::Nothing) => return Ok(Tried::Ended { committed: true }),
        Err(CommitFail::Conflict { .. }) => return Ok(Tried::Ended { committed: false }),
        Err(CommitFail::Full { txn, .. }) => txn,
        Err(CommitFail::Exhausted(_)) => return Err(Trouble::Stopped(Cause::Exhausted)),
        Err(CommitFail::NoMemory(_)) => return Err(Trouble::NoMemory),
        Err(CommitFail::Halted { .. } | CommitFail::Disk { .. }) => {
            return Err(Trouble::Stopped(Cause::Disk));
        }
    };
    match passed_over(shop.rotate(rt)) {
        Ok(()) => Ok(Tried::Again { txn }),
        Err(trouble) => Err(trouble),
    }
}

// Passes over what was refused.
pub(crate) fn passed_over(answer: Result<(), StepFail>) -> Result<(), Trouble>
    ensures { (v w : Knows) → IsCounted (is_step_fault answer) v w → IfErr result (IsTrouble v w) }
{
    match answer {
        Ok(()) | Err(StepFail::Refused) => Ok(()),
        Err(StepFail::NoMemory) => Err(Trouble::NoMemory),
        Err(StepFail::Disk { .. }) => Err(Trouble::Stopped(Cause::Disk)),
        Err(StepFail::Damaged { name, place }) => {
            Err(Trouble::Stopped(Cause::Damaged { name, place }))
        }
    }
}
