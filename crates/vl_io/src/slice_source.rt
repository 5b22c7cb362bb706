ghost use Rattle.std.specs.Prelude.{◌≡◌, ◌↔◌, ◌+◌, ◌++◌, ◌<◌, ◌≤◌, [], IsErr, IsOk, MatchResult, OnErr, IfOk, Some};
ghost use Rattle.std.specs.Prelude.{drop, length, min, take};
ghost use Rattle.vl_disk.specs.Faults.{HasCause};
ghost use Rattle.vl_disk.specs.FaultPlan.{IsDue, new_plan};
ghost use Rattle.vl_io.specs.SliceSource.{feed_after_failure, feed_after_giving};

use crate::source::Source;
use std::marker::Model;
use vl_disk::{Failed, FaultPlan};

/// A source over bytes in memory, some calls of which fail.
#[derive(Drop)]
pub struct SliceSource<'a> {
    given: &'a [u8],
    rest: &'a [u8],
    plan: FaultPlan,
}

impl<'a> Model for SliceSource<'a> {
    ghost use Rattle.vl_io.specs.SliceSource.{Feed};

    ghost Value = { Feed };

    ghost view = { λ s. record { given = s.given.now; rest = s.rest.now; plan = s.plan } };
}

impl<'a> SliceSource<'a> {
    /// Gives these bytes. The calls of `next` that `failing` lists, counted from 1, fail and give nothing.
    pub fn new(bytes: &'a [u8], failing: Vec<u64>) -> Self
        ensures given { result.given ≡ [] }
        ensures bytes { result.rest ≡ bytes.now }
        ensures plan { result.plan ≡ new_plan failing.items }
    {
        SliceSource {
            given: &bytes[..0],
            rest: bytes,
            plan: FaultPlan::new(failing),
        }
    }
}

impl Source for SliceSource<'_> {
    ghost use Rattle.vl_io.specs.SliceSource.{given_and_left};

    ghost left = { λ s. Some s.rest };

    ghost asked = { λ s. Some (s.given ++ s.rest) };

    ghost budget = { λ s. length s.rest };

    ghost faults = { λ s. s.plan.faults };

    ghost since_asked = { given_and_left };

    /// Gives as many bytes as fit.
    fn next(&mut self, out: &mut [u8]) -> Result<usize, Failed>
        requires room { 0 < length out.old }

        // What each source promises.
        ensures within { IfOk result (λ n. n ≤ length out.old) }
        ensures given { IfOk result (λ n. self.old.rest ≡ take n out.new ++ self.new.rest) }
        ensures end { IfOk result (λ n. n ≡ 0 → self.old.rest ≡ []) }
        ensures kept { OnErr result (Some self.new.rest ≡ Some self.old.rest) }
        ensures asked { self.new.given ++ self.new.rest ≡ self.old.rest }
        ensures spends { MatchResult result
            (λ n. length self.new.rest + n ≤ length self.old.rest)
            (λ _. length self.new.rest ≤ length self.old.rest) }
        ensures cause { HasCause self.old.plan.faults self.new.plan.faults (IsErr result) }

        // What this one does exactly.
        ensures due { IsErr result ↔ IsDue self.old.plan }
        ensures never { self.old.plan.failing ≡ [] → IsOk result }
        ensures count { IfOk result (λ n. n ≡ min (length out.old) (length self.old.rest)) }
        ensures written { IfOk result (λ n. out.new ≡ take n self.old.rest ++ drop n out.old) }
        ensures unwritten { OnErr result (out.new ≡ out.old) }
        ensures after { MatchResult result
            (λ n. self.new ≡ feed_after_giving n self.old)
            (λ _. self.new ≡ feed_after_failure self.old) }
    {
        if self.plan.is_due() {
            self.given = &self.rest[..0];
            self.plan.count_failure();
            return Err(Failed);
        }
        let count = out.len().min(self.rest.len());
        out[..count].copy_from_slice(&self.rest[..count]);
        self.given = &self.rest[..count];
        self.rest = &self.rest[count..];
        self.plan.count_success();
        Ok(count)
    }
}
