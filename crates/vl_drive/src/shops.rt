ghost use Rattle.std.specs.Prelude.{◌≡◌, ◌≤◌, List, IfOk, length, map};
ghost use Rattle.std.specs.FinMap.{empty};
ghost use Rattle.vl_drive.specs.Driven.{IsClosed};
ghost use Rattle.vl_drive.specs.Knowing.{Knows};
ghost use Rattle.vl_drive.specs.Steps.{history_by};
ghost use Rattle.vl_drive.specs.Stores.{AreFirst, AreOf, Opened};
ghost use Rattle.vl_engine_model.specs.LockHistory.{HasOpen, nothing_open};
ghost use Rattle.vl_engine_model.specs.declared.lock_history.LockEntry.{LockEntry};
ghost use Rattle.vl_model.specs.History.{History, last_number, value_at};

use crate::shop::Shop;
use std::alloc::{AllocError, Global};
use std::sync::Wait;
use vl_model::Value;

/// A store of which nothing but memory may run out, with shops as its sessions, from its opening to its close.
pub trait Shops: Drop {
    type Shop: Shop + Send;

    type Closed: Closed;

    /// What it was when it was opened, and how many sessions it has.
    ghost opened: { Self → Opened };

    /// Opens a store that has nothing, with so many shops.
    fn open(alloc: Global, count: u32) -> Result<(Self, Vec<Self::Shop>), AllocError>
        requires { (1 ≤ count) × (count ≤ 64) }
        ensures count { IfOk result (λ r. (length r.1.items ≡ count) × ((opened r.0).count ≡ count)) }
        ensures number { IfOk result (λ r. (opened r.0).origin.number ≡ 0) }
        // No key has a value before the first step.
        ensures base { IfOk result (λ r. (opened r.0).origin.base ≡ empty) }
        // Nothing lives in it.
        ensures nothing { IfOk result (λ r. HasOpen nothing_open (opened r.0).origin.layout) }
        ensures first { IfOk result (λ r. AreFirst (opened r.0) 0 (map Self.Shop.knows r.1.items)) };

    /// Closes it, and gives what it holds in the end. Its shops are handed in, all of them and in their order.
    fn close<R: Wait>(
        self,
        rt: &R,
        alloc: Global,
        shops: Vec<Self::Shop>,
    ) -> Result<Self::Closed, AllocError>
        requires all { length shops.items ≡ (opened self).count }
        requires of { AreOf (opened self) 0 (map Self.Shop.knows shops.items) }
        ensures { IfOk result (λ closed. (list : List LockEntry)
            × IsClosed (opened self).origin (map Self.Shop.knows shops.items) list
            × Self.Closed.shows closed (history_by (opened self).origin list)) };
}

/// What a store held when it was closed.
pub trait Closed: Drop {
    /// It shows this history.
    ghost shows: { Self → History → Type 0 };

    /// The value of a key of one byte behind the last commit.
    fn get(&mut self, key: &[u8]) -> Result<Option<Value>, AllocError>
        requires key { length key.now ≡ 1 }
        requires shown { (h : History) × shows self.old h }
        ensures value { (h : History) → shows self.old h → IfOk result (λ value. value ≡ value_at h (last_number h) key.now) }
        ensures still { (h : History) → shows self.old h → shows self.new h };
}
