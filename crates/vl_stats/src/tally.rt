ghost use Rattle.std.specs.Prelude.{◌≡◌, ◌≤◌, ◌+◌, ℕ, List, IfOk, OnOk, OnErr, map};
ghost use Rattle.std.specs.FinMap.{put};
ghost use Rattle.std.specs.List.{filter};
ghost use Rattle.std.specs.Option.{option_map};
ghost use Rattle.std.specs.Ordering.{nat_cmp};
ghost use Rattle.vl_model.specs.History.{History};
ghost use Rattle.vl_model.specs.Winners.{Logs};
ghost use Rattle.vl_engine_model.specs.Garbage.{best as best_of_layout, segment_bytes, stat_of};
ghost use Rattle.vl_engine_model.specs.Jobs.{Made};
ghost use Rattle.vl_engine_model.specs.Ruling.{Stepped};
ghost use Rattle.vl_engine_model.specs.Rulings.Flush.{flush_ruling};
ghost use Rattle.vl_engine_model.specs.Rulings.Install.{Installed, install_ruling};
ghost use Rattle.vl_engine_model.specs.Rulings.Rotate.{rotate_ruling};
ghost use Rattle.vl_engine_model.specs.Rulings.Stats.{stats_ruling};
ghost use Rattle.vl_engine_model.specs.Sources.{head as head_of, rising, tables};
ghost use Rattle.vl_engine_model.specs.Tidy.{IsTidy, sealed};
ghost use Rattle.vl_engine_model.specs.declared.job.Job.{Job};
ghost use Rattle.vl_engine_model.specs.declared.layout.Layout.{Layout};
ghost use Rattle.vl_engine_model.specs.declared.segment.SegmentStat as stat;
ghost use Rattle.vl_stats.specs.Live.{Switches, points_of_tables};
ghost use Rattle.vl_stats.specs.Tallies.{IsOfLayout, IsTally, length_of, lengths_of, stays};

use crate::LiveBytes;
use crate::logs::{Logs, put_log, retain, stats_of};
use crate::shares::{best_below, segment_of};
use std::alloc::{AllocError, Global};
use std::marker::Model;
use vl_engine_model::{SegmentStat, best_has_the_greatest_share};
use vl_table::Footer;

/// What is kept of each log that is sealed and not retired: how long it is, and how much of it is live.
#[derive(Drop)]
pub struct Tally {
    live: LiveBytes,
    // The logs by rising numbers, each with its length in bytes.
    logs: Logs,
}

impl Model for Tally {
    ghost use Rattle.std.specs.Prelude.{◌-◌, vec_len, vec_capacity};
    ghost use Rattle.vl_stats.specs.Tallies.{Tallied};

    ghost Value = { Tallied };

    ghost view = { λ a. record { logs = a.logs.items; live = a.live; room = vec_capacity a.logs - vec_len a.logs } };
}

impl Tally {
    /// Of the tables with these footers, and of logs by rising numbers, each with its length.
    pub fn new(
        alloc: Global,
        footers: &[&Footer],
        logs: Vec<(u32, u64)>,
    ) -> Result<Self, AllocError>
        ensures { IfOk result (λ tally. (l : Layout) → map (λ f. f.now.points.items) footers.now ≡ points_of_tables (tables l)
            → logs.items ≡ lengths_of (rising (sealed l)) → IsTally tally l) }
    {
        let live = LiveBytes::none(alloc).with(footers, &[])?;
        Ok(Tally { live, logs })
    }

    /// Makes room for one more log.
    pub fn reserve(&mut self) -> Result<(), AllocError>
        ensures logs { self.new.logs ≡ self.old.logs }
        ensures live { self.new.live ≡ self.old.live }
        ensures room { OnOk result (1 ≤ self.new.room) }
        ensures err { OnErr result (self.new ≡ self.old) }
    {
        self.logs.reserve(1)
    }

    /// The active log is sealed, for which there is room, by a rotation: its number, and its length.
    pub fn seal(&mut self, log: (u32, u64))
        requires { 1 ≤ self.old.room }
        ensures logs { self.new.logs ≡ put nat_cmp log.0 log.1 self.old.logs }
        ensures live { self.new.live ≡ self.old.live }
        ensures room { self.old.room ≤ self.new.room + 1 }
        ensures rotate { (l : Layout) (h : History) (n : ℕ) → IsTally self.old l → log ≡ length_of l.active
            → (rotate_ruling l h).answer ≡ Stepped n → IsTally self.new (rotate_ruling l h).layout }
    {
        put_log(&mut self.logs, log);
    }

    /// The live bytes behind a switch that adds and drops tables with these footers.
    pub fn with(&self, added: &[&Footer], dropped: &[&Footer]) -> Result<LiveBytes, AllocError>
        ensures { IfOk result (λ live. Switches self.now.live live (map (λ f. f.now.points.items) added.now)
            (map (λ f. f.now.points.items) dropped.now)) }
    {
        self.live.with(added, dropped)
    }

    /// Behind a switch, with the live bytes there: the logs below head of which nothing is live are retired.
    pub fn switch(&mut self, live: LiveBytes, head: u32)
        ensures logs { self.new.logs ≡ filter (stays head live) self.old.logs }
        ensures live { self.new.live ≡ live }
        ensures room { self.old.room ≤ self.new.room }
        ensures flush { (logs : Logs) (l : Layout) (h : History) (n : ℕ) → IsTidy logs l h → IsTally self.old l
            → (flush_ruling l h).answer ≡ Stepped n → IsOfLayout live head (flush_ruling l h).layout
            → IsTally self.new (flush_ruling l h).layout }
        ensures install { (logs : Logs) (l : Layout) (h : History) (job : Job) (made : Made) → IsTidy logs l h
            → IsTally self.old l → (install_ruling l h job made).answer ≡ Installed
            → IsOfLayout live head (install_ruling l h job made).layout
            → IsTally self.new (install_ruling l h job made).layout }
    {
        retain(&mut self.logs, &live, head);
        self.live = live;
    }

    /// What there is of each log, by rising numbers, the active one too, of which this is the number and the length.
    pub fn stats(&self, alloc: Global, active: (u32, u64)) -> Result<Vec<SegmentStat>, AllocError>
        ensures { IfOk result (λ stats. (l : Layout) (h : History) → IsTally self.now l → active ≡ length_of l.active
            → stats.items ≡ (stats_ruling l h).answer) }
    {
        let mut logs = Vec::from_slice(alloc, &self.logs)?;
        logs.reserve(1)?;
        put_log(&mut logs, active);
        stats_of(alloc, &self.live, &logs)
    }

    /// Of the logs below head with at least so many per cent of garbage the one with the greatest share of it, of several
    /// the one with the least number. None where none has so much.
    pub fn best(&self, percent: u8, head: u32) -> Option<u32>
        ensures { (logs : Logs) (l : Layout) (h : History) → IsTidy logs l h → IsTally self.now l → head ≡ head_of l
            → result ≡ option_map (λ (x : stat.SegmentStat). x.segment) (best_of_layout l percent) }
    {
        // A law: in whatever order logs stand, none has a greater share than the best of them.
        best_has_the_greatest_share();
        segment_of(best_below(&self.live, &self.logs, percent, head))
    }
}
