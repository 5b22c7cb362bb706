//! Numbers from leases that stand in one key.
ghost use Rattle.std.specs.Prelude.{◌≡◌, ◌≤◌, ◌<◌, ◌-◌, ℕ, IfErr, IfOk, IsOk, OnErr};
ghost use Rattle.vl_drive.specs.Answers.{is_step_fault};
ghost use Rattle.vl_drive.specs.Knowing.{GoesAside, GoesOn, IsCounted};
ghost use Rattle.vl_sequence.specs.Causes.{IsCause, IsRefusal};
ghost use Rattle.vl_sequence.specs.Sequences.{Gives, HasCommitted, IsReady, LeavesNothing};
ghost use Rattle.vl_sequence.specs.Takings.{IsBelowValue, IsLeased, IsOnlyLeased};

use crate::fails::{NewFail, SeqFail};
use crate::lease::take_lease;
use std::alloc::Global;
use std::sync::Wait;
use vl_drive::{Shop, StepFail};
use vl_model::{Key, MAX_KEY_BYTES};

/// Numbers that no other sequence over the key gives, rising from 1, or from where the key's earlier sequences ended.
///
/// It has a session of the store, and gives its numbers by leases of some at once. Over one key all sequences may have leases of different
/// lengths. What else writes the key must put a greater number there, in eight bytes, and never delete it: else numbers may be given again.
#[derive(Drop)]
pub struct Sequence<S: Shop> {
    shop: S,
    key: Key,
    lease: u32,
    // The numbers of the last lease that aren't given yet, without the end.
    next: u64,
    end: u64,
}

impl<S: Shop> Sequence<S> {
    /// A sequence over the key, which leases so many numbers at once: 1 to 1,000,000. It makes no step of the store.
    ///
    /// `EmptyKey` and `KeyTooLong`: the key has no byte, or more than [`MAX_KEY_BYTES`](vl_model::MAX_KEY_BYTES). `NoMemory`: there is
    /// none for a copy of the key. With each the shop comes back.
    pub fn new(alloc: Global, shop: S, key: &[u8], lease: u32) -> Result<Sequence<S>, NewFail<S>>
        requires lease { (1 ≤ lease) × (lease ≤ 1000000) }
        ensures ready { IfOk result (λ made. IsReady (S.knows made.shop) made.key made.lease made.next made.end) }
        ensures made { IfOk result (λ made. (made.shop ≡ shop) × (made.key ≡ key.now) × (made.lease ≡ lease)) }
        // No number is left: the first one takes a lease.
        ensures none { IfOk result (λ made. made.end ≡ made.next) }
        ensures refused { IfErr result (IsRefusal shop key.now) }
    {
        if key.is_empty() {
            return Err(NewFail::EmptyKey(shop));
        }
        if key.len() > MAX_KEY_BYTES {
            return Err(NewFail::KeyTooLong(shop));
        }
        match Key::copy_of(alloc, key) {
            Ok(key) => Ok(Sequence {
                shop,
                key,
                lease,
                next: 0,
                end: 0,
            }),
            Err(_) => Err(NewFail::NoMemory(shop)),
        }
    }

    /// The next number. Where the lease is used up a lease is taken first, in a commit of its own; else no step of the store is made.
    ///
    /// The number is above each that this sequence gave before. With an error the sequence is as it was, and what was begun has ended: it
    /// may be asked again. `Raced`: another transaction wrote the key meanwhile. `Spent`: the key's number and the lease together pass
    /// 2^63 - 1. `Malformed`: the key's value has so many bytes, and not eight. `TooMany`: 1,024 transactions and views live in the store.
    /// `Full`: the active log doesn't take the commit; `rotate` seals it. `Exhausted`: the store has no more numbers of commits.
    /// `Halted`, `Disk` and `Damaged`: the disk failed, or a file was changed. `NoMemory`: memory was wanting.
    pub fn next<R: Wait>(&mut self, rt: &R) -> Result<u64, SeqFail>
        requires ready { IsReady (S.knows self.old.shop) self.old.key self.old.lease self.old.next self.old.end }
        ensures on { GoesOn (S.knows self.old.shop) (S.knows self.new.shop) }
        ensures same { (self.new.key ≡ self.old.key) × (self.new.lease ≡ self.old.lease) }
        ensures ready { IsReady (S.knows self.new.shop) self.new.key self.new.lease self.new.next self.new.end }
        ensures given { IfOk result (λ n. Gives (S.knows self.old.shop) (S.knows self.new.shop) self.old.key self.old.lease
            self.old.next self.old.end self.new.next self.new.end n) }
        // It is in a lease of this session's own,
        ensures leased { IfOk result (λ n. IsLeased (S.knows self.new.shop) self.old.key n) }
        // and where only sequences write the key it rises, and is below the key's value.
        ensures rises { IsOnlyLeased (S.knows self.new.shop).origin self.old.key (S.knows self.new.shop).seen
            → IfOk result (λ n. self.old.next ≤ n) }
        ensures below { IsOnlyLeased (S.knows self.new.shop).origin self.old.key (S.knows self.new.shop).seen
            → IfOk result (λ n. IsBelowValue (S.knows self.new.shop) self.old.key n) }
        ensures refused { OnErr result ((self.new.next ≡ self.old.next) × (self.new.end ≡ self.old.end)) }
        // It is refused only where no number is left of the lease, and is no commit then.
        ensures left { self.old.next < self.old.end → IsOk result }
        ensures commits { (commits : ℕ) → HasCommitted commits (S.knows self.old.shop)
            → OnErr result (HasCommitted commits (S.knows self.new.shop)) }
        ensures nothing { LeavesNothing (S.knows self.old.shop) (S.knows self.new.shop) }
        ensures cause { IfErr result
            (IsCause (S.knows self.old.shop) (S.knows self.new.shop) self.old.key self.old.lease) }
    {
        if self.next < self.end {
            let given = self.next;
            self.next = given + 1;
            return Ok(given);
        }
        let first = take_lease(rt, &mut self.shop, self.key.as_slice(), self.lease)?;
        self.next = first + 1;
        self.end = first + self.lease as u64;
        Ok(first)
    }

    /// How many numbers of the lease are left. Where there are none the next number takes a lease.
    pub fn left(&self) -> u64
        requires { self.now.next ≤ self.now.end }
        ensures { result ≡ self.now.end - self.now.next }
    {
        self.end - self.next
    }

    /// Seals the active log of the store, so that a lease can be taken where it was `Full`. What is
    /// left of the lease stays.
    pub fn rotate<R: Wait>(&mut self, rt: &R) -> Result<(), StepFail>
        ensures steps { GoesAside (S.knows self.old.shop) (S.knows self.new.shop) }
        ensures faults { IsCounted (is_step_fault result) (S.knows self.old.shop) (S.knows self.new.shop) }
        ensures same { (self.new.key ≡ self.old.key) × (self.new.lease ≡ self.old.lease)
            × (self.new.next ≡ self.old.next) × (self.new.end ≡ self.old.end) }
        ensures ready { IsReady (S.knows self.old.shop) self.old.key self.old.lease self.old.next self.old.end
            → IsReady (S.knows self.new.shop) self.new.key self.new.lease self.new.next self.new.end }
        ensures commits { (commits : ℕ) → HasCommitted commits (S.knows self.old.shop)
            → HasCommitted commits (S.knows self.new.shop) }
    {
        self.shop.rotate(rt)
    }

    /// The session. What is left of the lease is given by nobody.
    pub fn into_shop(self) -> S
        ensures { result ≡ self.shop }
    {
        self.shop
    }
}
