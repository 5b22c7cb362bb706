//! Numbers from leases that stand in one key, over a session of any disk.

mod lease;

ghost use Rattle.std.specs.Prelude.{◌≡◌, ◌<◌, ◌≤◌, ◌-◌, IfErr, IfOk, IsOk, OnErr, length, true};
ghost use Rattle.vl_engine_model.specs.Rulings.Rotate.{rotate_ruling};
ghost use Rattle.vl_model.specs.Keys.{is_key_length};
ghost use Rattle.vl_sequence.specs.Causes.{IsRefusal};
ghost use Rattle.vl_sequence.specs.Sequences.{LeavesNothing, most_number};
ghost use Rattle.vl_steps.specs.Stepping.{step_outcome};
ghost use Rattle.vlstore.specs.Entries.{rotate_entry};
ghost use Rattle.vlstore.specs.Knowing.{GoesOn, KeepsOwnMerge, Stepped};
ghost use Rattle.vlstore.specs.Sequences.{GivesNext, IsNoNumber};
ghost use Rattle.vlstore.specs.Shops.{known_by};
ghost use Rattle.vlstore.specs.Standing.{NeverFails};

use crate::session::Session;
use lease::take_lease;
use std::alloc::Global;
use std::sync::Wait;
use vl_disk::Disk;
use vl_engine::StepFail;
use vl_model::{Key, MAX_KEY_BYTES};
use vl_sequence::{NewFail, SeqFail};

/// Numbers that no other sequence over the key gives, rising from 1, or from where the key's earlier sequences ended.
///
/// It has a session of the store, and gives its numbers by leases of some at once. Over one key all sequences may have
/// leases of different lengths. What else writes the key must put a greater number there, in eight bytes, and never
/// delete it: else numbers may be given again.
///
/// Over a folder the clauses tell how it goes through its leases, and nothing of what the key had. Where the disk told
/// its bytes when the store was made they tell of each lease what `vl_sequence` tells: it is a commit of the key alone,
/// and begins at the number that the key told before it. The code is the same over each disk.
#[derive(Drop)]
pub struct Sequence<D: Disk> {
    session: Session<D>,
    key: Key,
    lease: u32,
    // The numbers of the last lease that aren't given yet, without the end.
    next: u64,
    end: u64,
    ghost lawful: { is_key_length (length key) ≡ true },
    ghost least: { 1 ≤ lease },
    ghost most: { lease ≤ 1000000 },
    ghost held: { next ≤ end },
    ghost fits: { end ≤ most_number },
}

impl<D: Disk + Drop> Sequence<D> {
    /// A sequence over the key, which leases so many numbers at once: 1 to 1,000,000. It makes no step of the store.
    ///
    /// `EmptyKey` and `KeyTooLong`: the key has no byte, or more than [`MAX_KEY_BYTES`](vl_model::MAX_KEY_BYTES).
    /// `NoMemory`: there is none for a copy of the key. With each the session comes back.
    pub fn new(
        alloc: Global,
        session: Session<D>,
        key: &[u8],
        lease: u32,
    ) -> Result<Sequence<D>, NewFail<Session<D>>>
        requires lease { (1 ≤ lease) × (lease ≤ 1000000) }
        ensures made { IfOk result (λ made. (made.session ≡ session) × (made.key ≡ key.now) × (made.lease ≡ lease)) }
        ensures none { IfOk result (λ made. made.next ≡ made.end) }
        ensures refused { IfErr result (IsRefusal session key.now) }
    {
        if key.is_empty() {
            return Err(NewFail::EmptyKey(session));
        }
        if key.len() > MAX_KEY_BYTES {
            return Err(NewFail::KeyTooLong(session));
        }
        match Key::copy_of(alloc, key) {
            Ok(key) => Ok(Sequence {
                session,
                key,
                lease,
                next: 0,
                end: 0,
            }),
            Err(_) => Err(NewFail::NoMemory(session)),
        }
    }

    /// The next number. Where the lease is used up a lease is taken first, in a commit of its own; else no step of the
    /// store is made, and nobody is waited for.
    ///
    /// With an error the sequence is as it was, and what was begun has ended: it may be asked again. `Raced`: another
    /// transaction wrote the key meanwhile. `Spent`: the key's number and the lease together pass 2^63 - 1.
    /// `Malformed`: the key's value has so many bytes, and not eight. `TooMany`: 1,024 transactions and views live in
    /// the store. `Full`: the active log doesn't take the commit; `rotate`. `Exhausted`: the store has no more numbers
    /// of commits. `Halted`, `Disk` and `Damaged`: the disk failed, or a file was changed. `NoMemory`: memory was
    /// wanting.
    pub fn next<R: Wait>(&mut self, rt: &R) -> Result<u64, SeqFail>
        ensures on { GoesOn self.old.session self.new.session }
        ensures merge { KeepsOwnMerge self.old.session self.new.session }
        ensures same { (self.new.key ≡ self.old.key) × (self.new.lease ≡ self.old.lease) }
        ensures given { IfOk result (GivesNext self.old.session self.new.session self.old.key self.old.lease
            self.old.next self.old.end self.new.next self.new.end) }
        ensures refused { OnErr result ((self.new.next ≡ self.old.next) × (self.new.end ≡ self.old.end)) }
        ensures cause { IfErr result
            (IsNoNumber D.faults (λ r. D.Reader.faults r) self.old.session self.new.session self.old.key self.old.lease) }
        // What is left of a lease is never refused.
        ensures left { self.old.next < self.old.end → IsOk result }
        // Where the disk told its bytes, nothing that was begun is open.
        ensures nothing { self.old.session.tells ≡ true
            → LeavesNothing (known_by self.old.session) (known_by self.new.session) }
    {
        if self.next < self.end {
            let given = self.next;
            self.next = given + 1;
            return Ok(given);
        }
        let first = take_lease(rt, &mut self.session, self.key.as_slice(), self.lease)?;
        self.next = first + 1;
        self.end = first + self.lease as u64;
        Ok(first)
    }

    /// How many numbers are left of the lease. To give these makes no step of the store.
    pub fn left(&self) -> u64
        ensures { result ≡ self.now.end - self.now.next }
    {
        self.end - self.next
    }

    /// Seals the active log, as the session's `rotate` does and with its errors: so that a lease can be taken where one
    /// was refused by `Full`. The numbers that are left are as before.
    pub fn rotate<R: Wait>(&mut self, rt: &R) -> Result<Option<u32>, StepFail>
        ensures on { GoesOn self.old.session self.new.session }
        ensures merge { KeepsOwnMerge self.old.session self.new.session }
        ensures steps { self.old.session.tells ≡ true
            → Stepped (NeverFails D.faults D.Reader.faults D.Writer.faults) self.old.session self.new.session
            rotate_ruling rotate_entry (step_outcome result) }
        ensures same { (self.new.key ≡ self.old.key) × (self.new.lease ≡ self.old.lease) }
        ensures left { (self.new.next ≡ self.old.next) × (self.new.end ≡ self.old.end) }
    {
        self.session.rotate(rt)
    }

    /// The session. What is left of the lease is given by nobody.
    pub fn into_session(self) -> Session<D>
        ensures { result ≡ self.session }
    {
        self.session
    }
}
