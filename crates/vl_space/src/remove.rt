//! What is kept of which files can go: how it is made, and how steps change it.
ghost use Rattle.std.specs.Prelude.{◌≡◌, ◌++◌, ℕ, None, IfOk, OnErr, OnOk, length, map, slice_get};
ghost use Rattle.vl_compact.specs.declared.files.Lent.{Lent};
ghost use Rattle.vl_space.specs.Retiring.{IsReadied, LeavesFiles, StaysUsed, files_in, is_idle_log, left_of, logs_kept};
ghost use Rattle.vl_space.specs.Retiring.{retiring, switching, used_in};
ghost use Rattle.vl_pins.specs.Files.{BecomesBy, Has, HasRoom};
ghost use Rattle.vl_pins.specs.InUse.{but};
ghost use Rattle.vl_table.specs.Tables.{number_of};
ghost use Rattle.vl_version.specs.levels.LevelsLooked.{tables_of};

use crate::Removing;
use std::alloc::{AllocError, Global};
use vl_compact::{Job, Lent, Parts, Synced};
use vl_disk::{HeldFile, Writer};
use vl_engine_laws::Core;
use vl_pins::{InUse, Stock};
use vl_seglog::SealedLog;
use vl_stats::LiveBytes;
use vl_table::Table;

impl<L: Drop> Removing<L> {
    /// Makes what is kept of the files in use, where it isn't there yet, with room for so many tables more and for one log. Each of
    /// them can be retired then without memory, and so many files that are lent.
    pub fn make_room<H: HeldFile>(
        &mut self,
        alloc: Global,
        core: &Core<H>,
        tables: usize,
        lent: usize,
    ) -> Result<(), AllocError>
        ensures pins { self.new.pins ≡ self.old.pins }
        ensures readied { OnOk result (IsReadied core.now self.old.stock self.new.stock tables lent) }
        ensures refused { OnErr result (StaysUsed core.now self.old.stock self.new.stock) }
    {
        self.ready(alloc, core)?;
        self.stock.make_room(tables, lent)
    }

    // Makes it, where it isn't there yet.
    fn ready<H: HeldFile>(&mut self, alloc: Global, core: &Core<H>) -> Result<(), AllocError>
        ensures pins { self.new.pins ≡ self.old.pins }
        ensures trash { self.new.stock.trash ≡ self.old.stock.trash }
        ensures has { OnOk result (Has self.new.stock (used_in core.now self.old.stock)) }
        ensures refused { OnErr result (self.new.stock ≡ self.old.stock) }
    {
        if self.stock.in_use.is_some() {
            return Ok(());
        }
        let in_use = files_in_use(alloc, core)?;
        self.stock.in_use = Some(in_use);
        Ok(())
    }

    /// Behind a switch that made this epoch: these tables come into use, and are retired; and so are the logs in use below
    /// head of which nothing is live.
    pub fn switch(
        &mut self,
        added: &[u32],
        dropped: &[u32],
        live: &LiveBytes,
        head: u32,
        epoch: u64,
    )
        requires { HasRoom self.old.stock (length added.now) 0 0 }
        ensures pins { self.new.pins ≡ self.old.pins }
        ensures switched { BecomesBy (switching epoch added.now dropped.now (is_idle_log head live.now))
            self.old.stock self.new.stock }
        ensures room { (n : ℕ) → HasRoom self.old.stock (length added.now) 0 n → HasRoom self.new.stock 0 0 n }
    {
        for table in added {
            self.stock.add_table(*table);
        }
        for table in dropped {
            self.stock.retire_table(*table, epoch);
        }
        retire_logs(&mut self.stock, live, head, epoch);
    }
}

// The logs below head of which nothing is live are retired.
fn retire_logs<L: Drop>(stock: &mut Stock<L>, live: &LiveBytes, head: u32, epoch: u64)
    requires { HasRoom stock.old 0 0 0 }
    ensures retired { BecomesBy (retiring epoch (is_idle_log head live.now)) stock.old stock.new }
    ensures room { (n : ℕ) → HasRoom stock.old 0 0 n → HasRoom stock.new 0 0 n }
{
    let mut at = 0;
    while let Some(log) = log_at(stock, at) {
        if is_idle(live, head, log) {
            stock.retire_log(log, epoch);
        } else {
            at += 1;
        }
    }
}

// Whether the log is below head, and nothing of it is live.
fn is_idle(live: &LiveBytes, head: u32, log: u32) -> bool
    ensures { result ≡ is_idle_log head live.now log }
{
    log < head && live.live(log) == 0
}

// The number of the log at a place among those in use.
fn log_at<L>(stock: &Stock<L>, at: usize) -> Option<u32>
    ensures { result ≡ slice_get (logs_kept stock.now) at }
{
    match &stock.in_use {
        None => None,
        Some(in_use) => in_use.logs.get(at).copied(),
    }
}

// The files of a version that are in use: its tables, and its sealed logs.
fn files_in_use<H: HeldFile>(alloc: Global, core: &Core<H>) -> Result<InUse, AllocError>
    ensures tables { IfOk result (λ in_use. in_use.tables.items ≡ map number_of (tables_of core.now.version.behind.levels)) }
    ensures logs { IfOk result (λ in_use. in_use.logs.items
        ≡ but core.now.front.log.number (map (λ log. log.number) core.now.version.behind.logs.items)) }
{
    let levels = core.version.levels();
    let mut in_use = InUse::new(alloc);
    put_numbers(&mut in_use.tables, levels.newest())?;
    for level in levels.deeper() {
        put_numbers(&mut in_use.tables, level.as_slice())?;
    }
    put_sealed(&mut in_use.logs, core.version.logs(), core.front.log.number)?;
    Ok(in_use)
}

// Puts the numbers of these tables behind others.
fn put_numbers<H: HeldFile>(numbers: &mut Vec<u32>, tables: &[Table<H>]) -> Result<(), AllocError>
    ensures { OnOk result (numbers.new.items ≡ numbers.old.items ++ map number_of tables.now) }
{
    for table in tables {
        numbers.push(table.shape().number)?;
    }
    Ok(())
}

// Puts the numbers of these logs behind others, but for this one.
fn put_sealed<H: HeldFile>(
    numbers: &mut Vec<u32>,
    logs: &[SealedLog<H>],
    active: u32,
) -> Result<(), AllocError>
    ensures { OnOk result (numbers.new.items ≡ numbers.old.items ++ but active (map (λ log. log.number) logs.now)) }
{
    for log in logs {
        if log.number != active {
            numbers.push(log.number)?;
        }
    }
    Ok(())
}

/// The files of a merge that has ended without them wait for their removal: its tables', and its other ones.
pub fn abandon_files<W: Writer + Drop>(
    stock: &mut Stock<Lent<W>>,
    made: Vec<Synced<W>>,
    leavings: Vec<Lent<W>>,
)
    ensures { LeavesFiles (map left_of made.items ++ leavings.items) stock.old stock.new }
{
    for table in made {
        let Synced { number, writer, .. } = table;
        stock.leave(number, Lent { number, writer });
    }
    for file in leavings {
        stock.leave(file.number, file);
    }
}

/// The merge that is open has ended without its tables: it pins nothing, and its files wait for their removal.
pub fn abandon<V: Drop, H: HeldFile, W: Writer + Drop>(
    removing: &mut Removing<Lent<W>>,
    job: Job<V, H, W>,
)
    ensures left { LeavesFiles (files_in job) removing.old.stock removing.new.stock }
    ensures pins { removing.new.pins ≡ record removing.old.pins { merge = None } }
{
    removing.pins.merge = None;
    let Parts { made, leavings, .. } = job.into_parts();
    abandon_files(&mut removing.stock, made, leavings);
}
