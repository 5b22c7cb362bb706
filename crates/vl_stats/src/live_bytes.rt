ghost use Rattle.std.specs.Prelude.{◌≡◌, IfOk, [], map};
ghost use Rattle.vl_stats.specs.Live.{AreOf, Switches, bytes_of};

use crate::sums::{self, Sums};
use std::alloc::{AllocError, Global};
use std::collections::BTreeMap;
use std::marker::Model;
use vl_table::Footer;

/// How many bytes of each segment's records the tables of a version lead to, by their footers.
#[derive(Drop)]
pub struct LiveBytes {
    sums: Sums,
}

impl Model for LiveBytes {
    ghost use Rattle.std.specs.Prelude.{ℕ, List};
    ghost use Rattle.std.specs.Ordering.{nat_cmp};
    ghost use Rattle.std.specs.BTreeMap.{get};
    ghost use Rattle.vl_stats.specs.Sums.{HasNoEmpty};

    ghost Value = { List (ℕ × ℕ) };

    ghost view = { λ a. a.sums.entries };

    ghost invariant = { λ a. HasNoEmpty (get nat_cmp a.sums) };
}

impl LiveBytes {
    /// Those of no tables.
    pub fn none(alloc: Global) -> Self
        ensures { AreOf [] result }
    {
        LiveBytes {
            sums: BTreeMap::new(alloc),
        }
    }

    /// Those of the tables after a switch that adds and drops tables with these footers.
    pub fn with(&self, added: &[&Footer], dropped: &[&Footer]) -> Result<LiveBytes, AllocError>
        ensures { IfOk result (λ live. Switches self.now live (map (λ f. f.now.points.items) added.now)
            (map (λ f. f.now.points.items) dropped.now)) }
    {
        let mut sums = self.sums.clone()?;
        sums::add_footers(&mut sums, added)?;
        sums::take_footers(&mut sums, dropped);
        Ok(LiveBytes { sums })
    }

    /// How many bytes of a segment are live.
    pub fn live(&self, segment: u32) -> u128
        ensures { result ≡ bytes_of self.now segment }
    {
        self.sums.get(&segment).copied().unwrap_or(0)
    }
}
