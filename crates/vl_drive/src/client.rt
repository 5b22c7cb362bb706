//! A client's turns.
ghost use Rattle.std.specs.Prelude.{◌≡◌, ◌≢◌, ◌<◌, ◌+◌, ◌++◌, ◌∷◌, [], ℕ, List, IfErr, IfOk, OnErr, OnOk, true};
ghost use Rattle.std.specs.FinMap.{empty, entries};
ghost use Rattle.vl_drive.specs.Accounts.{account_key, balance_in, with_balance};
ghost use Rattle.vl_drive.specs.Clients.{HasMet};
ghost use Rattle.vl_drive.specs.Knowing.{GoesOn, IsOwnTicket, Looks};
ghost use Rattle.vl_drive.specs.Modest.{IsBusy, IsIdle, IsModest};
ghost use Rattle.vl_drive.specs.Numbers.{number_in_turn, transfer_of};
ghost use Rattle.vl_drive.specs.Playing.{HasBegun, HasScored, HasTaken, IsTrouble};
ghost use Rattle.vl_drive.specs.Small.{IsSmall};
ghost use Rattle.vl_drive.specs.Steps.{history_by};
ghost use Rattle.vl_engine_model.specs.declared.lock_history.LockEntry.{LockEntry};
ghost use Rattle.vl_model.specs.History.{History, value_at};
ghost use Rattle.vl_model.specs.Reads.{KeyRead, Read};

use crate::accounts::{balance_bytes, balance_in};
use crate::commit::commit;
use crate::fails::{BeginFail, ReadFail};
use crate::gate::{Gate, Point};
use crate::shop::Shop;
use crate::transfer::{Transfer, next_number};
use crate::trouble::{Cause, Trouble};
use std::sync::Wait;

// What a client's turns came to.
#[derive(Clone, Copy)]
pub(crate) struct Score {
    pub(crate) commits: u64,
    pub(crate) conflicts: u64,
}

// Takes so many turns.
pub(crate) fn play<R: Wait, S: Shop, G: Gate>(
    rt: &R,
    shop: &mut S,
    gate: &G,
    client: u32,
    txns: u32,
    seed: u64,
) -> Result<Score, Trouble>
    ensures on { GoesOn (S.knows shop.old) (S.knows shop.new) }
    ensures scored { (S.knows shop.old).own ≡ [] → IfOk result (λ score.
        HasScored (λ turn. transfer_of (number_in_turn seed turn)) txns score.commits score.conflicts (S.knows shop.new)) }
    ensures met { (S.knows shop.old).own ≡ []
        → OnOk result (HasMet (S.knows shop.old).seen (S.knows shop.new)) }
    ensures count { IfOk result (λ score. score.commits + score.conflicts ≡ txns) }
    ensures modest { (S.knows shop.old).own ≡ [] → IsModest txns (S.knows shop.new) }
    ensures trouble { IfErr result (IsTrouble (S.knows shop.old) (S.knows shop.new)) }
{
    let mut score = Score {
        commits: 0,
        conflicts: 0,
    };
    let mut x = seed;
    for turn in 0..txns {
        x = next_number(x);
        if take_turn(rt, shop, gate, client, turn + 1, Transfer::of(x))? {
            score.commits += 1;
        } else {
            score.conflicts += 1;
        }
    }
    Ok(score)
}

// Moves an amount between two accounts, and says whether it was committed; else it met a conflict.
fn take_turn<R: Wait, S: Shop, G: Gate>(
    rt: &R,
    shop: &mut S,
    gate: &G,
    client: u32,
    turn: u32,
    transfer: Transfer,
) -> Result<bool, Trouble>
    requires two { transfer.from ≢ transfer.to }
    ensures on { GoesOn (S.knows shop.old) (S.knows shop.new) }
    ensures taken { IfOk result (λ committed. HasTaken transfer committed (S.knows shop.old) (S.knows shop.new)) }
    ensures idle { (turns : ℕ) → IsIdle turns (S.knows shop.old) → OnOk result (IsIdle (turns + 1) (S.knows shop.new)) }
    ensures modest { (turns : ℕ) → IsIdle turns (S.knows shop.old) → OnErr result (IsModest turns (S.knows shop.new)) }
    ensures trouble { IfErr result (IsTrouble (S.knows shop.old) (S.knows shop.new)) }
{
    let mut txn = begin(rt, shop)?;
    let from = balance(shop, &mut txn, transfer.from)?;
    let to = balance(shop, &mut txn, transfer.to)?;
    gate.at(client, turn, Point::BeforeCommit);
    let moved = transfer.most.min(from);
    set(shop, &mut txn, transfer.from, from - moved)?;
    set(shop, &mut txn, transfer.to, to.saturating_add(moved))?;
    let committed = commit(rt, shop, txn)?;
    gate.at(client, turn, Point::AfterCommit);
    Ok(committed)
}

// Begins a transaction.
pub(crate) fn begin<R: Wait, S: Shop>(rt: &R, shop: &mut S) -> Result<S::Txn, Trouble>
    ensures on { GoesOn (S.knows shop.old) (S.knows shop.new) }
    ensures begun { IfOk result (λ txn. (before : List LockEntry)
        × HasBegun (S.ticket txn) (S.number txn) before (S.knows shop.old) (S.knows shop.new)) }
    ensures own { IfOk result (λ txn. IsOwnTicket (S.knows shop.new) (S.ticket txn) (S.number txn)) }
    ensures sees { IfOk result (λ txn. S.sees txn (history_by (S.knows shop.new).origin (S.knows shop.new).seen) []) }
    ensures new { IfOk result (λ txn. S.writes txn ≡ empty) }
    ensures busy { (turns : ℕ) → IsIdle turns (S.knows shop.old)
        → IfOk result (λ txn. IsBusy (S.ticket txn) (S.number txn) turns (S.knows shop.new)) }
    ensures modest { (turns : ℕ) → IsIdle turns (S.knows shop.old) → OnErr result (IsModest turns (S.knows shop.new)) }
    ensures trouble { IfErr result (IsTrouble (S.knows shop.old) (S.knows shop.new)) }
{
    match shop.begin(rt) {
        Ok(txn) => Ok(txn),
        Err(BeginFail::TooMany) => Err(Trouble::Stopped(Cause::TooMany)),
        Err(BeginFail::NoMemory) => Err(Trouble::NoMemory),
    }
}

// An account's balance.
fn balance<S: Shop>(shop: &mut S, txn: &mut S::Txn, account: u8) -> Result<u64, Trouble>
    requires unwritten { S.writes txn.old ≡ empty }
    requires sees { (h : History) × (reads : List Read) × S.sees txn.old h reads }
    ensures looks { Looks (S.knows shop.old) (S.knows shop.new) }
    ensures value { (h : History) (reads : List Read) → S.sees txn.old h reads
        → IfOk result (λ balance. balance ≡ balance_in (value_at h (S.number txn.old) (account_key account))) }
    ensures sees { (h : History) (reads : List Read) → S.sees txn.old h reads
        → OnOk result (S.sees txn.new h
        (reads ++ KeyRead (account_key account) (value_at h (S.number txn.old) (account_key account)) ∷ [])) }
    ensures ticket { S.ticket txn.new ≡ S.ticket txn.old }
    ensures number { S.number txn.new ≡ S.number txn.old }
    ensures writes { S.writes txn.new ≡ S.writes txn.old }
    ensures trouble { IfErr result (IsTrouble (S.knows shop.old) (S.knows shop.new)) }
{
    match shop.get(txn, &[account]) {
        Ok(value) => Ok(balance_in(&value)),
        Err(ReadFail::NoMemory) => Err(Trouble::NoMemory),
        Err(ReadFail::Disk { .. }) => Err(Trouble::Stopped(Cause::Disk)),
        Err(ReadFail::Damaged { name, place }) => {
            Err(Trouble::Stopped(Cause::Damaged { name, place }))
        }
    }
}

// Writes an account's balance.
pub(crate) fn set<S: Shop>(
    shop: &mut S,
    txn: &mut S::Txn,
    account: u8,
    balance: u64,
) -> Result<(), Trouble>
    requires small { IsSmall (S.writes txn.old) }
    ensures looks { Looks (S.knows shop.old) (S.knows shop.new) }
    ensures sees { (h : History) (reads : List Read) → S.sees txn.old h reads → S.sees txn.new h reads }
    ensures ticket { S.ticket txn.new ≡ S.ticket txn.old }
    ensures number { S.number txn.new ≡ S.number txn.old }
    ensures writes { OnOk result (S.writes txn.new ≡ with_balance account balance (S.writes txn.old)) }
    ensures trouble { IfErr result (IsTrouble (S.knows shop.old) (S.knows shop.new)) }
{
    match shop.set(txn, &[account], &balance_bytes(balance)) {
        Ok(()) => Ok(()),
        Err(_) => Err(Trouble::NoMemory),
    }
}
