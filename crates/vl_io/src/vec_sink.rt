ghost use Rattle.std.specs.Prelude.{◌≡◌, ◌↔◌, ◌+◌, ◌++◌, ◌≤◌, [], IfOk, IsErr, IsOk, MatchResult, OnErr, OnOk, Some, length};
ghost use Rattle.vl_disk.specs.Faults.{HasCause};
ghost use Rattle.vl_disk.specs.FaultPlan.{new_plan};
ghost use Rattle.vl_io.specs.Sink.{TakesPrefix};
ghost use Rattle.vl_io.specs.VecSink.{Refuses, tank_after_failure, tank_after_taking};

use crate::sink::Sink;
use std::alloc::{AllocError, Global};
use std::marker::Model;
use vl_disk::{Failed, FaultPlan};

/// A sink into memory, with room for a fixed number of bytes, some calls of which fail.
#[derive(Drop)]
pub struct VecSink {
    bytes: Vec<u8>,
    room: usize,
    plan: FaultPlan,
}

impl Model for VecSink {
    ghost use Rattle.std.specs.Prelude.{◌≤◌, vec_capacity, vec_len};
    ghost use Rattle.vl_io.specs.VecSink.{Tank};

    ghost Value = { Tank };

    ghost view = { λ s. record { bytes = s.bytes.items; room = s.room; plan = s.plan } };

    ghost invariant = { λ s. (vec_len s.bytes ≤ s.room) × (s.room ≤ vec_capacity s.bytes) };
}

impl VecSink {
    /// A sink with room for this many bytes, which are allocated here, so that no call of `put` allocates.
    /// The calls of `put` that `failing` lists, counted from 1, fail and take nothing.
    pub fn new(alloc: Global, room: usize, failing: Vec<u64>) -> Result<Self, AllocError>
        ensures bytes { IfOk result (λ sink. sink.bytes ≡ []) }
        ensures room { IfOk result (λ sink. sink.room ≡ room) }
        ensures plan { IfOk result (λ sink. sink.plan ≡ new_plan failing.items) }
    {
        Ok(VecSink {
            bytes: Vec::with_capacity(alloc, room)?,
            room,
            plan: FaultPlan::new(failing),
        })
    }

    /// The bytes that it took.
    pub fn bytes(&self) -> &[u8]
        ensures { result.now ≡ self.now.bytes }
    {
        &self.bytes
    }

    /// The bytes that it took.
    pub fn into_bytes(self) -> Vec<u8>
        ensures { result.items ≡ self.bytes }
    {
        self.bytes
    }
}

impl Sink for VecSink {
    ghost held = { λ s. Some s.bytes };

    ghost faults = { λ s. s.plan.faults };

    /// Takes the whole piece, or fails and takes nothing.
    fn put(&mut self, piece: &[u8]) -> Result<(), Failed>
        // What each sink promises.
        ensures taken { OnOk result (self.new.bytes ≡ self.old.bytes ++ piece.now) }
        ensures part { OnErr result
            (TakesPrefix (Some self.old.bytes) (Some self.new.bytes) piece.now) }
        ensures cause { HasCause self.old.plan.faults self.new.plan.faults (IsErr result) }

        // What this one does exactly.
        ensures refused { IsErr result ↔ Refuses self.old piece.now }
        ensures fits { self.old.plan.failing ≡ [] →
            length self.old.bytes + length piece.now ≤ self.old.room → IsOk result }
        ensures after { MatchResult result
            (λ _. self.new ≡ tank_after_taking piece.now self.old)
            (λ _. self.new ≡ tank_after_failure self.old) }
    {
        if self.plan.is_due() || piece.len() > self.room - self.bytes.len() {
            self.plan.count_failure();
            return Err(Failed);
        }
        self.bytes.extend_from_slice(piece).unwrap();
        self.plan.count_success();
        Ok(())
    }
}
