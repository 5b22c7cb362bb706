// The changing calls of a disk in memory.
ghost use Rattle.std.specs.Prelude.{◌≡◌, ◌↔◌, IsTrue};
ghost use Rattle.vl_disk.specs.Faults.{HasCause};
ghost use Rattle.vl_mem.specs.ChangePlan.{FollowsPlan, HasStopped, new_changes, stopping_after};

use std::marker::Model;
use vl_disk::FaultPlan;

/// The changing calls of a disk in memory that are to fail, by a list and by a stop, and what it counted.
#[derive(Drop)]
pub struct ChangePlan {
    listed: FaultPlan,
    // After so many calls each fails. It is wide, since it may lie past the last value of the count.
    stop: Option<u128>,
}

impl Model for ChangePlan {
    ghost use Rattle.vl_mem.specs.ChangePlan.{ChangePlan};

    ghost Value = { ChangePlan };

    ghost view = { λ p. record { listed = p.listed; stop = p.stop } };
}

impl ChangePlan {
    pub fn new(failing: Vec<u64>) -> Self
        ensures { result ≡ new_changes failing.items }
    {
        ChangePlan {
            listed: FaultPlan::new(failing),
            stop: None,
        }
    }

    /// Of the calls from now on so many are as they were to be, and each later one fails.
    pub fn stop_after(&mut self, calls: u64)
        ensures { self.new ≡ stopping_after calls self.old }
    {
        self.stop = Some(self.listed.calls() as u128 + calls as u128);
    }

    // Whether the calls before the stop were all made.
    fn has_stopped(&self) -> bool
        ensures { IsTrue result ↔ HasStopped self.now }
    {
        match self.stop {
            Some(stop) => stop <= self.listed.calls() as u128,
            None => false,
        }
    }

    /// Counts a call, and answers whether it fails.
    pub fn fails(&mut self) -> bool
        ensures follows { FollowsPlan self.old self.new (IsTrue result) }
        ensures cause { HasCause self.old.listed.faults self.new.listed.faults (IsTrue result) }
    {
        let fails = self.listed.is_due() || self.has_stopped();
        if fails {
            self.listed.count_failure();
        } else {
            self.listed.count_success();
        }
        fails
    }
}
