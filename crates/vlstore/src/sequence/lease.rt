//! A lease is taken by a transaction of its own.
ghost use Rattle.std.specs.Prelude.{◌≡◌, ◌≢◌, ◌≤◌, ◌+◌, ◌++◌, ◌∷◌, [], ℕ, Err, List, Option, Some, IfErr, IfOk, OnErr, OnOk, false, is_ok, length, true};
ghost use Rattle.std.specs.FinMap.{empty, entries};
ghost use Rattle.vl_engine_laws.specs.Represents.{file_of};
ghost use Rattle.vl_model.specs.History.{History, value_at};
ghost use Rattle.vl_model.specs.Keys.{Stored, is_key_length};
ghost use Rattle.vl_model.specs.Reads.{KeyRead, Read};
ghost use Rattle.vl_reads.specs.Reading.{ReadFailed};
ghost use Rattle.vl_reads.specs.Sees.{Sees, asked};
ghost use Rattle.vl_reads.specs.declared.fails.ReadFail.TheVariants as fails;
ghost use Rattle.vl_sequence.specs.Causes.{IsRuled, WasFull};
ghost use Rattle.vl_sequence.specs.Leases.{number_in};
ghost use Rattle.vl_sequence.specs.Sequences.{Begins, Closes, LeavesNothing, Puts, TakesLease, lease_writes, most_number};
ghost use Rattle.vlstore.specs.Counting.{WasCounted};
ghost use Rattle.vlstore.specs.Knowing.{GoesOn, IsOwnTicket, KeepsOwnMerge};
ghost use Rattle.vlstore.specs.Lists.{history_by};
ghost use Rattle.vlstore.specs.Sequences.{IsNoLease, IsNoNumber};
ghost use Rattle.vlstore.specs.Shops.{known_by, origin_of};

use crate::session::Session;
use std::sync::Wait;
use vl_cache::Cached;
use vl_disk::{Disk, HeldFile, Name, Reader};
use vl_engine::{BeginFail, CommitFail, Done, ReadFail, Txn};
use vl_engine_model::FileName;
use vl_model::{Counter, reads_without_conflict_stay_explained};
use vl_sequence::{SeqFail, end_of, first_number, number_bytes};

// Takes a lease, and gives its first number.
pub(super) fn take_lease<D: Disk, R: Wait>(
    rt: &R,
    session: &mut Session<D>,
    key: &[u8],
    lease: u32,
) -> Result<u64, SeqFail>
    requires key { is_key_length (length key.now) ≡ true }
    requires lease { lease ≤ 1000000 }
    ensures on { GoesOn session.old session.new }
    ensures merge { KeepsOwnMerge session.old session.new }
    ensures fits { IfOk result (λ first. first + lease ≤ most_number) }
    ensures took { session.old.tells ≡ true → IfOk result (λ first.
        TakesLease (known_by session.old) (known_by session.new) key.now first (first + lease)) }
    ensures nothing { session.old.tells ≡ true → LeavesNothing (known_by session.old) (known_by session.new) }
    ensures cause { IfErr result
        (IsNoNumber D.faults (λ r. D.Reader.faults r) session.old session.new key.now lease) }
{
    reads_without_conflict_stay_explained();
    let mut txn = begin(rt, session)?;
    match raise(&mut txn, key, lease) {
        Ok(first) => {
            commit(rt, session, txn)?;
            Ok(first)
        }
        Err(why) => {
            give_up(rt, session, txn);
            Err(why)
        }
    }
}

// Begins a transaction.
fn begin<D: Disk, R: Wait>(
    rt: &R,
    session: &mut Session<D>,
) -> Result<Txn<D::Held, Cached<D::Reader>>, SeqFail>
    ensures on { GoesOn session.old session.new }
    ensures merge { KeepsOwnMerge session.old session.new }
    ensures new { IfOk result (λ txn. txn.writes ≡ empty) }
    ensures begun { session.old.tells ≡ true
        → IfOk result (λ txn. Begins (known_by session.old) (known_by session.new) txn.ticket txn.number) }
    ensures own { session.old.tells ≡ true → IfOk result (λ txn. IsOwnTicket session.new txn.ticket txn.number) }
    ensures sees { session.old.tells ≡ true
        → IfOk result (λ txn. Sees D.Held.bytes txn (history_by session.new.origin session.new.seen) []) }
    ensures nothing { session.old.tells ≡ true → OnErr result (LeavesNothing (known_by session.old) (known_by session.new)) }
    ensures cause { (lease : ℕ) → IfErr result
        (IsNoLease (session.old.tells ≡ true → WasFull (known_by session.new)) (λ _. ⊥) (λ _. ⊥) ⊥ lease) }
{
    match session.begin(rt) {
        Ok(txn) => Ok(txn),
        Err(BeginFail::TooMany) => Err(SeqFail::TooMany),
        Err(BeginFail::NoMemory) => Err(SeqFail::NoMemory),
    }
}

// Puts the end of the lease in the place of its first number, in a transaction that has written nothing.
fn raise<H: HeldFile, F: Reader<Held = H> + Drop>(
    txn: &mut Txn<H, F>,
    key: &[u8],
    lease: u32,
) -> Result<u64, SeqFail>
    requires key { is_key_length (length key.now) ≡ true }
    requires lease { lease ≤ 1000000 }
    requires new { txn.old.writes ≡ empty }
    ensures told { (h : History) (reads : List Read) → Sees H.bytes txn.old h reads
        → IfOk result (λ first. number_in (value_at h txn.old.number key.now) ≡ Some first) }
    ensures sees { (h : History) (reads : List Read) → Sees H.bytes txn.old h reads
        → OnOk result (Sees H.bytes txn.new h (reads ++ KeyRead key.now (value_at h txn.old.number key.now) ∷ [])) }
    ensures ticket { txn.new.ticket ≡ txn.old.ticket }
    ensures number { txn.new.number ≡ txn.old.number }
    ensures writes { IfOk result (λ first. txn.new.writes ≡ lease_writes key.now (first + lease)) }
    ensures fits { IfOk result (λ first. first + lease ≤ most_number) }
    // It is refused by a value that was read, which is the history's that the transaction sees. What failed was counted.
    ensures cause { IfErr result (IsNoLease ⊥ (λ value. (h : History) (reads : List Read) → Sees H.bytes txn.old h reads
        → value ≡ value_at h txn.old.number key.now) (λ _. ⊥) (WasCounted F.faults) lease) }
{
    let value = match txn.get(key) {
        Ok(value) => value,
        Err(fail) => return Err(not_read(fail)),
    };
    let first = first_number(&value)?;
    let end = end_of(first, lease)?;
    match txn.set(key, &number_bytes(end)) {
        Ok(()) => Ok(first),
        // A lawful key and eight bytes pass no limit.
        Err(_) => Err(SeqFail::NoMemory),
    }
}

// Commits a transaction that has writes. Where it isn't committed it ends.
fn commit<D: Disk, R: Wait>(
    rt: &R,
    session: &mut Session<D>,
    txn: Txn<D::Held, Cached<D::Reader>>,
) -> Result<(), SeqFail>
    requires own { session.old.tells ≡ true → IsOwnTicket session.old txn.ticket txn.number }
    requires sees { session.old.tells ≡ true → (h : History) × (reads : List Read) × Sees D.Held.bytes txn h reads }
    requires writes { entries txn.writes ≢ [] }
    ensures on { GoesOn session.old session.new }
    ensures merge { KeepsOwnMerge session.old session.new }
    ensures closes { session.old.tells ≡ true → Closes (is_ok result) (known_by session.old) (known_by session.new) txn.ticket }
    ensures puts { session.old.tells ≡ true → (h : History) (reads : List Read) → Sees D.Held.bytes txn h reads
        → OnOk result (Puts (known_by session.old) (known_by session.new) txn.ticket txn.number reads txn.writes) }
    ensures cause { (lease : ℕ) → IfErr result (IsNoLease ⊥ (λ _. ⊥) (λ answer. session.old.tells ≡ true
        → (h : History) (reads : List Read) → Sees D.Held.bytes txn h reads
        → IsRuled (origin_of session.old.origin) session.old.seen session.new.seen (asked txn reads) answer) (WasCounted D.faults) lease) }
{
    match session.commit(rt, txn) {
        Ok(Done::At(_)) => Ok(()),
        // Something was written. Over a disk that tells nothing no clause says that this isn't answered then.
        Ok(Done::Nothing) => Err(SeqFail::NoMemory),
        Err(CommitFail::Conflict { number, .. }) => Err(SeqFail::Raced { number }),
        Err(CommitFail::Halted { name }) => Err(SeqFail::Halted { name: named(name) }),
        Err(CommitFail::Disk { name }) => Err(SeqFail::Disk { name: named(name) }),
        Err(CommitFail::Full { txn, length, frame }) => {
            give_up(rt, session, txn);
            Err(SeqFail::Full { length, frame })
        }
        Err(CommitFail::Exhausted(txn)) => {
            give_up(rt, session, txn);
            Err(SeqFail::Exhausted(Counter::Commit))
        }
        Err(CommitFail::NoMemory(txn)) => {
            give_up(rt, session, txn);
            Err(SeqFail::NoMemory)
        }
    }
}

// Ends a transaction that isn't committed.
fn give_up<D: Disk, R: Wait>(rt: &R, session: &mut Session<D>, txn: Txn<D::Held, Cached<D::Reader>>)
    requires { session.old.tells ≡ true → IsOwnTicket session.old txn.ticket txn.number }
    ensures on { GoesOn session.old session.new }
    ensures merge { KeepsOwnMerge session.old session.new }
    ensures closes { session.old.tells ≡ true → Closes false (known_by session.old) (known_by session.new) txn.ticket }
{
    session.forget(rt, txn);
}

// Why a read of a lawful key gave nothing.
fn not_read(fail: ReadFail) -> SeqFail
    requires some { fail ≢ fails.EmptyKey }
    requires short { fail ≢ fails.KeyTooLong }
    ensures { (lease : ℕ) → IsNoLease ⊥ (λ _. ⊥) (λ _. ⊥) (ReadFailed {T = Option Stored} (Err fail)) lease result }
{
    match fail {
        ReadFail::NoMemory => SeqFail::NoMemory,
        ReadFail::Disk { name } => SeqFail::Disk { name: named(name) },
        ReadFail::Damaged { name, place } => SeqFail::Damaged {
            name: named(name),
            place,
        },
        ReadFail::EmptyKey | ReadFail::KeyTooLong => unreachable!(),
    }
}

// A file's name, as a refusal has it.
fn named(name: Name) -> FileName
    ensures { result ≡ file_of name }
{
    match name {
        Name::Log(number) => FileName::Log(number),
        Name::Table(number) => FileName::Table(number),
        Name::Manifest(number) => FileName::Manifest(number),
    }
}
