//! What an engine keeps of where space comes back from: how it is made, and how steps on files change it.
ghost use Rattle.std.specs.Prelude.{◌≡◌, ◌≤◌, ◌++◌, ℕ, List, map, IfOk, IsSome, OnErr, OnOk};
ghost use Rattle.std.specs.List.{filter};
ghost use Rattle.std.specs.Option.{ForSome, option_map};
ghost use Rattle.vl_engine_laws.specs.Represents.{StandsFor};
ghost use Rattle.vl_space.specs.Collecting.{AreSealed, IsReadied, IsTallied, Keeps, LeadsFrom, head_in, idle_in, lengths_in};
ghost use Rattle.vl_space.specs.Collecting.{points_in, points_made};
ghost use Rattle.vl_space.specs.Retiring.{is_idle_in, is_idle_log};
ghost use Rattle.vl_engine_model.specs.Garbage.{best as best_of_layout};
ghost use Rattle.vl_engine_model.specs.Jobs.{Made};
ghost use Rattle.vl_engine_model.specs.Ruling.{Stepped};
ghost use Rattle.vl_engine_model.specs.Rulings.Flush.{flush_ruling};
ghost use Rattle.vl_engine_model.specs.Rulings.Install.{Installed, install_ruling};
ghost use Rattle.vl_engine_model.specs.Rulings.Rotate.{rotate_ruling};
ghost use Rattle.vl_engine_model.specs.Sources.{head as layout_head};
ghost use Rattle.vl_engine_model.specs.Tidy.{IsTidy};
ghost use Rattle.vl_engine_model.specs.declared.job.Job as laid_job;
ghost use Rattle.vl_engine_model.specs.declared.layout.Layout.{Layout};
ghost use Rattle.vl_engine_model.specs.declared.segment.SegmentStat as stat;
ghost use Rattle.vl_model.specs.History.{History};
ghost use Rattle.vl_model.specs.Winners.{Logs};
ghost use Rattle.vl_stats.specs.Tallies.{IsOfLayout, IsTally, length_of};
ghost use Rattle.vl_table.specs.Tables.{number_of};
ghost use Rattle.vl_version.specs.Bases.{is_input};
ghost use Rattle.vl_version.specs.Shared.{IsSameLog};
ghost use Rattle.vl_version.specs.levels.LevelsLooked.{tables_of};

use crate::Collecting;
use std::alloc::{AllocError, Global};
use vl_compact::{Job, Synced, numbers_of};
use vl_disk::{HeldFile, Reader, Writer};
use vl_engine_laws::Core;
use vl_seglog::SealedLog;
use vl_stats::{LiveBytes, Tally};
use vl_table::{Footer, Table};
use vl_version::{Base, Levels, is_input};

impl Collecting {
    /// Makes what is kept of live bytes, where it isn't there yet.
    pub fn ready<H: HeldFile>(&mut self, alloc: Global, core: &Core<H>) -> Result<(), AllocError>
        ensures readied { OnOk result (IsReadied H.bytes core.now self.old self.new) }
        ensures refused { OnErr result (self.new ≡ self.old) }
    {
        if self.tally.is_none() {
            self.tally = Some(tally_of(alloc, core)?);
        }
        Ok(())
    }

    /// The same, with room for one more log.
    pub fn make_room<H: HeldFile>(
        &mut self,
        alloc: Global,
        core: &Core<H>,
    ) -> Result<(), AllocError>
        ensures readied { OnOk result (IsReadied H.bytes core.now self.old self.new) }
        ensures room { OnOk result (ForSome self.new.tally (λ t. 1 ≤ t.room)) }
        ensures refused { OnErr result (Keeps H.bytes core.now self.old self.new) }
    {
        self.ready(alloc, core)?;
        match &mut self.tally {
            None => Ok(()),
            Some(tally) => tally.reserve(),
        }
    }

    /// A log was sealed, for which there is room: its number, and its length.
    pub fn seal(&mut self, log: (u32, u64))
        requires { ForSome self.old.tally (λ t. 1 ≤ t.room) }
        ensures passing { self.new.passing ≡ self.old.passing }
        ensures rotate { (l : Layout) (h : History) (n : ℕ) → IsTallied self.old.tally l → log ≡ length_of l.active
            → (rotate_ruling l h).answer ≡ Stepped n → IsTallied self.new.tally (rotate_ruling l h).layout }
    {
        if let Some(tally) = &mut self.tally {
            tally.seal(log);
        }
    }

    /// The live bytes behind a switch that adds and drops tables with these footers.
    pub fn live_with<H: HeldFile>(
        &mut self,
        alloc: Global,
        core: &Core<H>,
        added: &[&Footer],
        dropped: &[&Footer],
    ) -> Result<LiveBytes, AllocError>
        ensures readied { OnOk result (IsReadied H.bytes core.now self.old self.new) }
        ensures live { IfOk result (λ live. LeadsFrom self.new.tally live (map (λ f. f.now.points.items) added.now)
            (map (λ f. f.now.points.items) dropped.now)) }
        ensures refused { OnErr result (Keeps H.bytes core.now self.old self.new) }
    {
        self.ready(alloc, core)?;
        match &self.tally {
            None => Err(AllocError),
            Some(tally) => tally.with(added, dropped),
        }
    }

    /// Those behind the install of a merge: of the version's tables those are dropped that it merged.
    pub fn live_installed<H: HeldFile, R: Reader<Held = H>, W: Writer>(
        &mut self,
        alloc: Global,
        core: &Core<H>,
        job: &Job<Base<H, R>, H, W>,
    ) -> Result<LiveBytes, AllocError>
        ensures readied { OnOk result (IsReadied H.bytes core.now self.old self.new) }
        ensures live { IfOk result (λ live. LeadsFrom self.new.tally live (points_made job.now.made.items)
            (points_in (filter (is_input (map number_of job.now.inputs.tables.items)) (tables_of core.now.version.behind.levels)))) }
        ensures refused { OnErr result (Keeps H.bytes core.now self.old self.new) }
    {
        let made = made_footers(alloc, job.made())?;
        let inputs = numbers_of(alloc, &job.inputs().tables)?;
        let dropped = input_footers(alloc, core.version.levels(), &inputs)?;
        self.live_with(alloc, core, &made, &dropped)
    }

    /// Behind a switch, with the live bytes there: the logs below head of which nothing is live are left out.
    pub fn switch(&mut self, live: LiveBytes, head: u32)
        ensures passing { self.new.passing ≡ self.old.passing }
        ensures live { IsSome self.old.tally → (n : ℕ) → is_idle_in head self.new.tally n ≡ is_idle_log head live n }
        ensures flush { (logs : Logs) (l : Layout) (h : History) (n : ℕ) → IsTidy logs l h
            → IsTallied self.old.tally l → (flush_ruling l h).answer ≡ Stepped n
            → IsOfLayout live head (flush_ruling l h).layout → IsTallied self.new.tally (flush_ruling l h).layout }
        ensures install { (logs : Logs) (l : Layout) (h : History) (j : laid_job.Job) (made : Made) → IsTidy logs l h
            → IsTallied self.old.tally l → (install_ruling l h j made).answer ≡ Installed
            → IsOfLayout live head (install_ruling l h j made).layout
            → IsTallied self.new.tally (install_ruling l h j made).layout }
    {
        if let Some(tally) = &mut self.tally {
            tally.switch(live, head);
        }
    }

    /// Of the logs below head with at least so many per cent of garbage the one with the greatest share of it.
    pub fn best(&self, percent: u8, head: u32) -> Option<u32>
        ensures { (logs : Logs) (l : Layout) (h : History) → IsTidy logs l h → IsTallied self.now.tally l
            → head ≡ layout_head l → result ≡ option_map (λ (x : stat.SegmentStat). x.segment) (best_of_layout l percent) }
    {
        match &self.tally {
            None => None,
            Some(tally) => tally.best(percent, head),
        }
    }
}

/// What is kept of live bytes, made of a version that has no other logs than those that are sealed.
pub fn tally_of<H: HeldFile>(alloc: Global, core: &Core<H>) -> Result<Tally, AllocError>
    ensures { IfOk result (λ tally. (h : History) (l : Layout) → StandsFor H.bytes core.now h l
        → AreSealed core.now.version.behind.logs.items l → IsTally tally l) }
{
    let footers = footers_of(alloc, core.version.levels())?;
    let logs = lengths_of(alloc, core.version.logs())?;
    Tally::new(alloc, &footers, logs)
}

/// The numbers of those of these logs of which nothing is live.
pub fn idle_logs<H: HeldFile>(
    alloc: Global,
    logs: &[SealedLog<H>],
    live: &LiveBytes,
) -> Result<Vec<u32>, AllocError>
    ensures { IfOk result (λ idle. idle.items ≡ idle_in live.now logs.now) }
{
    let mut idle = Vec::new(alloc);
    for log in logs {
        if live.live(log.number) == 0 {
            idle.push(log.number)?;
        }
    }
    Ok(idle)
}

// Each log with its length.
fn lengths_of<H: HeldFile>(
    alloc: Global,
    logs: &[SealedLog<H>],
) -> Result<Vec<(u32, u64)>, AllocError>
    ensures { IfOk result (λ lengths. lengths.items ≡ lengths_in H.size logs.now) }
{
    let mut lengths = Vec::new(alloc);
    for log in logs {
        lengths.push((log.number, log.held.len()))?;
    }
    Ok(lengths)
}

// The footers of all tables, level by level.
fn footers_of<'a, H: HeldFile>(
    alloc: Global,
    levels: &'a Levels<H>,
) -> Result<Vec<&'a Footer>, AllocError>
    ensures { IfOk result (λ footers. map (λ f. f.now.points.items) footers.items ≡ points_in (tables_of levels.now)) }
{
    let mut footers = Vec::new(alloc);
    put_footers(&mut footers, levels.newest())?;
    for level in levels.deeper() {
        put_footers(&mut footers, level.as_slice())?;
    }
    Ok(footers)
}

// Puts the footers of these tables behind others.
fn put_footers<'a, H: HeldFile>(
    footers: &mut Vec<&'a Footer>,
    tables: &'a [Table<H>],
) -> Result<(), AllocError>
    ensures { OnOk result (map (λ f. f.now.points.items) footers.new.items
        ≡ map (λ f. f.now.points.items) footers.old.items ++ points_in tables.now) }
{
    for table in tables {
        footers.push(&table.shape().footer)?;
    }
    Ok(())
}

// Of all tables those of the tables with these numbers.
fn input_footers<'a, H: HeldFile>(
    alloc: Global,
    levels: &'a Levels<H>,
    inputs: &[u32],
) -> Result<Vec<&'a Footer>, AllocError>
    ensures { IfOk result (λ footers. map (λ f. f.now.points.items) footers.items ≡ points_in
        (filter (is_input inputs.now) (tables_of levels.now))) }
{
    let mut footers = Vec::new(alloc);
    put_inputs(&mut footers, levels.newest(), inputs)?;
    for level in levels.deeper() {
        put_inputs(&mut footers, level.as_slice(), inputs)?;
    }
    Ok(footers)
}

// Of these tables.
fn put_inputs<'a, H: HeldFile>(
    footers: &mut Vec<&'a Footer>,
    tables: &'a [Table<H>],
    inputs: &[u32],
) -> Result<(), AllocError>
    ensures { OnOk result (map (λ f. f.now.points.items) footers.new.items
        ≡ map (λ f. f.now.points.items) footers.old.items ++ points_in (filter (is_input inputs.now) tables.now)) }
{
    for table in tables {
        if is_input(inputs, table) {
            footers.push(&table.shape().footer)?;
        }
    }
    Ok(())
}

// The footers of the tables that were made.
fn made_footers<'a, W: Writer>(
    alloc: Global,
    made: &'a [Synced<W>],
) -> Result<Vec<&'a Footer>, AllocError>
    ensures { IfOk result (λ footers. map (λ f. f.now.points.items) footers.items ≡ points_made made.now) }
{
    let mut footers = Vec::new(alloc);
    for table in made {
        footers.push(&table.shape.footer)?;
    }
    Ok(footers)
}

/// The number of the least log whose memtable isn't flushed.
pub fn head_of<H: HeldFile>(core: &Core<H>) -> u32
    ensures { result ≡ head_in core.now }
{
    match core.version.oldest() {
        None => core.front.log.number,
        Some(log) => log.number,
    }
}

/// The same log, held once more.
pub fn shared_log<H: HeldFile>(log: &SealedLog<H>) -> Result<SealedLog<H>, AllocError>
    ensures { IfOk result (IsSameLog H.bytes log.now) }
{
    Ok(SealedLog {
        number: log.number,
        format: log.format,
        held: log.held.clone()?,
    })
}
