ghost use Rattle.std.specs.Prelude.{◌≡◌, ◌↔◌, ◌≤◌, IfOk, IsTrue};
ghost use Rattle.vl_disk.specs.FaultPlan.{IsDue, Follows, new_plan, plan_after_failure, plan_after_success};
ghost use Rattle.vl_disk.specs.Faults.{HasCause};

use std::alloc::{AllocError, Global};
use std::marker::Model;

/// The calls of an object in memory that are to fail, by their numbers from 1, and what it counted.
#[derive(Drop)]
pub struct FaultPlan {
    failing: Vec<u64>,
    calls: u64,
    faults: u64,
}

impl Model for FaultPlan {
    ghost use Rattle.vl_disk.specs.FaultPlan.{Plan};

    ghost Value = { Plan };

    ghost view = { λ p. record { failing = p.failing.items; calls = p.calls; faults = p.faults } };
}

impl FaultPlan {
    pub fn new(failing: Vec<u64>) -> Self
        ensures { result ≡ new_plan failing.items }
    {
        FaultPlan {
            failing,
            calls: 0,
            faults: 0,
        }
    }

    /// The same calls, counted anew.
    pub fn again(&self, alloc: Global) -> Result<Self, AllocError>
        ensures { IfOk result (λ plan. plan ≡ new_plan self.now.failing) }
    {
        Ok(FaultPlan::new(Vec::from_slice(alloc, &self.failing)?))
    }

    /// The calls so far. The count stands still at its last value.
    pub fn calls(&self) -> u64
        ensures { result ≡ self.now.calls }
    {
        self.calls
    }

    /// Whether the next call is to fail.
    pub fn is_due(&self) -> bool
        ensures { IsTrue result ↔ IsDue self.now }
    {
        // One is taken off each number, since adding one to the count may not fit.
        let calls = self.calls;
        self.failing
            .iter()
            .any(|number| *number > 0 && *number - 1 == calls)
    }

    pub fn count_success(&mut self)
        ensures { self.new ≡ plan_after_success self.old }
    {
        self.calls = self.calls.saturating_add(1);
    }

    pub fn count_failure(&mut self)
        ensures after { self.new ≡ plan_after_failure self.old }
        ensures counts { self.old.faults ≤ self.new.faults }
    {
        self.calls = self.calls.saturating_add(1);
        self.faults = self.faults.saturating_add(1);
    }

    /// Counts a call, and answers whether it fails.
    pub fn fails(&mut self) -> bool
        ensures follows { Follows self.old self.new (IsTrue result) }
        ensures cause { HasCause self.old.faults self.new.faults (IsTrue result) }
    {
        let fails = self.is_due();
        if fails {
            self.count_failure();
        } else {
            self.count_success();
        }
        fails
    }
}
