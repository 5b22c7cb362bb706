//! A lease is taken by a transaction of its own.
ghost use Rattle.std.specs.Prelude.{◌≡◌, ◌≢◌, ◌≤◌, ◌+◌, ◌++◌, ◌∷◌, [], ℕ, List, Some, IfErr, IfOk, OnErr, OnOk, false, is_ok, length, true};
ghost use Rattle.std.specs.FinMap.{empty, entries};
ghost use Rattle.vl_drive.specs.Answers.{asked};
ghost use Rattle.vl_drive.specs.Knowing.{GoesOn, IsOwnTicket, Looks};
ghost use Rattle.vl_drive.specs.Steps.{history_by};
ghost use Rattle.vl_model.specs.History.{History, value_at};
ghost use Rattle.vl_model.specs.Keys.{is_key_length};
ghost use Rattle.vl_model.specs.Reads.{KeyRead, Read};
ghost use Rattle.vl_sequence.specs.Causes.{IsBeginCause, IsCause, IsCommitCause, IsRaiseCause};
ghost use Rattle.vl_sequence.specs.Leases.{number_in};
ghost use Rattle.vl_sequence.specs.Sequences.{Begins, Closes, HasCommitted, LeavesNothing, MakesNone, Puts, TakesLease};
ghost use Rattle.vl_sequence.specs.Sequences.{lease_writes, most_number};

use crate::fails::SeqFail;
use crate::numbers::{end_of, first_number, number_bytes};
use std::sync::Wait;
use vl_drive::{BeginFail, CommitFail, Done, ReadFail, Shop};
use vl_model::{Counter, reads_without_conflict_stay_explained};

// Takes a lease, and gives its first number.
pub(crate) fn take_lease<R: Wait, S: Shop>(
    rt: &R,
    shop: &mut S,
    key: &[u8],
    lease: u32,
) -> Result<u64, SeqFail>
    requires key { is_key_length (length key.now) ≡ true }
    requires lease { (1 ≤ lease) × (lease ≤ 1000000) }
    ensures on { GoesOn (S.knows shop.old) (S.knows shop.new) }
    ensures took { IfOk result (λ first. TakesLease (S.knows shop.old) (S.knows shop.new) key.now first (first + lease)) }
    ensures nothing { LeavesNothing (S.knows shop.old) (S.knows shop.new) }
    ensures commits { (commits : ℕ) → HasCommitted commits (S.knows shop.old)
        → OnErr result (HasCommitted commits (S.knows shop.new)) }
    ensures cause { IfErr result (IsCause (S.knows shop.old) (S.knows shop.new) key.now lease) }
{
    reads_without_conflict_stay_explained();
    let mut txn = begin(rt, shop)?;
    match raise(shop, &mut txn, key, lease) {
        Ok(first) => {
            commit(rt, shop, txn)?;
            Ok(first)
        }
        Err(why) => {
            give_up(rt, shop, txn);
            Err(why)
        }
    }
}

// Begins a transaction.
fn begin<R: Wait, S: Shop>(rt: &R, shop: &mut S) -> Result<S::Txn, SeqFail>
    ensures on { GoesOn (S.knows shop.old) (S.knows shop.new) }
    ensures begun { IfOk result (λ txn. Begins (S.knows shop.old) (S.knows shop.new) (S.ticket txn) (S.number txn)) }
    ensures own { IfOk result (λ txn. IsOwnTicket (S.knows shop.new) (S.ticket txn) (S.number txn)) }
    ensures sees { IfOk result (λ txn. S.sees txn (history_by (S.knows shop.new).origin (S.knows shop.new).seen) []) }
    ensures new { IfOk result (λ txn. S.writes txn ≡ empty) }
    ensures none { OnErr result (MakesNone (S.knows shop.old) (S.knows shop.new)) }
    ensures cause { IfErr result (IsBeginCause (S.knows shop.new)) }
{
    match shop.begin(rt) {
        Ok(txn) => Ok(txn),
        Err(BeginFail::TooMany) => Err(SeqFail::TooMany),
        Err(BeginFail::NoMemory) => Err(SeqFail::NoMemory),
    }
}

// Puts the end of the lease in the place of its first number, in the transaction.
fn raise<S: Shop>(shop: &mut S, txn: &mut S::Txn, key: &[u8], lease: u32) -> Result<u64, SeqFail>
    requires key { is_key_length (length key.now) ≡ true }
    requires lease { (1 ≤ lease) × (lease ≤ 1000000) }
    requires new { S.writes txn.old ≡ empty }
    requires sees { (h : History) × (reads : List Read) × S.sees txn.old h reads }
    ensures looks { Looks (S.knows shop.old) (S.knows shop.new) }
    ensures told { (h : History) (reads : List Read) → S.sees txn.old h reads
        → IfOk result (λ first. number_in (value_at h (S.number txn.old) key.now) ≡ Some first) }
    ensures sees { (h : History) (reads : List Read) → S.sees txn.old h reads
        → OnOk result (S.sees txn.new h (reads ++ KeyRead key.now (value_at h (S.number txn.old) key.now) ∷ [])) }
    ensures ticket { S.ticket txn.new ≡ S.ticket txn.old }
    ensures number { S.number txn.new ≡ S.number txn.old }
    ensures writes { IfOk result (λ first. S.writes txn.new ≡ lease_writes key.now (first + lease)) }
    ensures fits { IfOk result (λ first. first + lease ≤ most_number) }
    ensures cause { (h : History) (reads : List Read) → S.sees txn.old h reads → IfErr result
        (IsRaiseCause (S.knows shop.old) (S.knows shop.new) (value_at h (S.number txn.old) key.now) lease) }
{
    let value = match shop.get(txn, key) {
        Ok(value) => value,
        Err(ReadFail::NoMemory) => return Err(SeqFail::NoMemory),
        Err(ReadFail::Disk { name }) => return Err(SeqFail::Disk { name }),
        Err(ReadFail::Damaged { name, place }) => return Err(SeqFail::Damaged { name, place }),
    };
    let first = first_number(&value)?;
    let end = end_of(first, lease)?;
    match shop.set(txn, key, &number_bytes(end)) {
        Ok(()) => Ok(first),
        Err(_) => Err(SeqFail::NoMemory),
    }
}

// Commits a transaction that has writes. Where it isn't committed it ends.
fn commit<R: Wait, S: Shop>(rt: &R, shop: &mut S, txn: S::Txn) -> Result<(), SeqFail>
    requires own { IsOwnTicket (S.knows shop.old) (S.ticket txn) (S.number txn) }
    requires sees { (h : History) × (reads : List Read) × S.sees txn h reads }
    requires writes { entries (S.writes txn) ≢ [] }
    ensures closes { Closes (is_ok result) (S.knows shop.old) (S.knows shop.new) (S.ticket txn) }
    ensures puts { (h : History) (reads : List Read) → S.sees txn h reads
        → OnOk result (Puts (S.knows shop.old) (S.knows shop.new) (S.ticket txn) (S.number txn) reads (S.writes txn)) }
    ensures cause { (h : History) (reads : List Read) → S.sees txn h reads → IfErr result
        (IsCommitCause (S.knows shop.old) (S.knows shop.new)
        (asked (S.ticket txn) (S.number txn) reads (entries (S.writes txn)))) }
{
    match shop.commit(rt, txn) {
        Ok(Done::At(_)) => Ok(()),
        Ok(Done::Nothing) => unreachable!(),
        Err(CommitFail::Conflict { number, .. }) => Err(SeqFail::Raced { number }),
        Err(CommitFail::Halted { name }) => Err(SeqFail::Halted { name }),
        Err(CommitFail::Disk { name }) => Err(SeqFail::Disk { name }),
        Err(CommitFail::Full { txn, length, frame }) => {
            give_up(rt, shop, txn);
            Err(SeqFail::Full { length, frame })
        }
        Err(CommitFail::Exhausted(txn)) => {
            give_up(rt, shop, txn);
            Err(SeqFail::Exhausted(Counter::Commit))
        }
        Err(CommitFail::NoMemory(txn)) => {
            give_up(rt, shop, txn);
            Err(SeqFail::NoMemory)
        }
    }
}

// Ends a transaction that isn't committed.
fn give_up<R: Wait, S: Shop>(rt: &R, shop: &mut S, txn: S::Txn)
    requires own { IsOwnTicket (S.knows shop.old) (S.ticket txn) (S.number txn) }
    ensures { Closes false (S.knows shop.old) (S.knows shop.new) (S.ticket txn) }
{
    shop.forget(rt, txn);
}
