//! The sources of a scan, cut to its interval, and those of a version alone.

ghost use Rattle.std.specs.Prelude.{◌≡◌, ◌++◌, [], Bool, List, map, IfOk, OnOk};
ghost use Rattle.std.specs.FinMap.{entries};
ghost use Rattle.vl_disk.specs.declared.read_fault.ReadFault.{ReadFault};
ghost use Rattle.vl_model.specs.Cutting.{joined};
ghost use Rattle.vl_model.specs.Reads.{bound};
ghost use Rattle.vl_model.specs.declared.entry.Entry.{Entry};
ghost use Rattle.vl_model.specs.declared.span.Span.{Span};
ghost use Rattle.vl_model.specs.declared.way.Way.TheVariants.{Up};
ghost use Rattle.vl_table.specs.OfTables.{AreOf};
ghost use Rattle.vl_table.specs.declared.table.Table.{Table};
ghost use Rattle.vl_version.specs.Changes.{everywhere};
ghost use Rattle.vl_version.specs.Gathered.{Adds, IsQuiet, TellWinners, span_of};
ghost use Rattle.vl_version.specs.Naming.{FailWithin};
ghost use Rattle.vl_version.specs.Own.{own_entries};
ghost use Rattle.vl_version.specs.Sources.{held_entries};
ghost use Rattle.vl_version.specs.Standing.{AreStanding, ShowWinners};
ghost use Rattle.vl_version.specs.Whole.{LevelsReadTo, LevelsStop, SourcesFail, SourcesStand};
ghost use Rattle.vl_version.specs.declared.source.Source.TheVariants as source;
ghost use Rattle.vl_version.specs.levels.LevelsLooked.{AreInOrder, tables_of};

mod tables;

use crate::own::OwnCursor;
use crate::source::Source;
use crate::wanted::Wanted;
use crate::{Behind, Levels};
use std::alloc::{AllocError, Global};
use tables::add_levels;
use vl_disk::{HeldFile, Reader};
use vl_memtable::{FrozenLog, Memtable, RunCursor};
use vl_model::{Key, Span, Way};
use vl_txn::Writes;

/// Cursors over the own writes, the memtables and the tables, the newest source first, of which the own writes come before
/// all.
pub fn sources_within<'a, H: HeldFile, R: Reader<Held = H> + Drop>(
    alloc: Global,
    own: &'a Writes,
    active: &Memtable,
    behind: &Behind<H>,
    wanted: Wanted<'_>,
    number: u64,
) -> Result<Vec<Source<'a, H, R>>, AllocError>
    ensures winners { IfOk result (λ sources. (tabled : List (List Entry))
        → AreOf H.bytes (tables_of behind.now.levels) tabled → AreInOrder behind.now.levels
        → TellWinners H.bytes (span_of wanted.entry.low.now wanted.entry.high.now) wanted.entry.way
        (own_entries number (entries own.now) ++ ((active.now.entries ++ held_entries behind.now.frozen.items) ++ joined tabled))
        sources.items) }
    ensures quiet { IfOk result (λ sources. tables_of behind.now.levels ≡ [] → IsQuiet H.bytes sources.items) }
    ensures faults { IfOk result (λ sources.
        FailWithin H.bytes (span_of wanted.entry.low.now wanted.entry.high.now) (tables_of behind.now.levels) sources.items) }
    ensures reads { IfOk result (λ sources. (is_met : Entry → Bool) → SourcesStand H.bytes is_met sources.items
        → LevelsReadTo H.bytes (span_of wanted.entry.low.now wanted.entry.high.now) wanted.entry.way is_met behind.now.levels) }
    ensures standing { IfOk result (λ sources. (tabled : List (List Entry))
        → AreStanding H.bytes (span_of wanted.entry.low.now wanted.entry.high.now) wanted.entry.way behind.now.levels tabled
        → ShowWinners H.bytes (span_of wanted.entry.low.now wanted.entry.high.now) wanted.entry.way
        (own_entries number (entries own.now) ++ ((active.now.entries ++ held_entries behind.now.frozen.items) ++ joined tabled))
        sources.items) }
    ensures stops { IfOk result (λ sources. (fault : ReadFault) → SourcesFail H.bytes fault sources.items
        → LevelsStop H.bytes (span_of wanted.entry.low.now wanted.entry.high.now) wanted.entry.way behind.now.levels fault) }
{
    let span = span_of(alloc, wanted.low, wanted.high)?;
    let mut sources = own_source(alloc, own, wanted, number)?;
    add_memtable(&mut sources, active, &span, wanted.way)?;
    add_frozen(&mut sources, &behind.frozen, &span, wanted.way)?;
    add_levels(alloc, &mut sources, &behind.levels, &span, wanted.way)?;
    Ok(sources)
}

/// Cursors over the memtables and these tables, from the least key on, the newest source first.
pub fn stored_sources<'a, H: HeldFile, R: Reader<Held = H> + Drop>(
    alloc: Global,
    active: &Memtable,
    frozen: &[FrozenLog],
    levels: &Levels<H>,
) -> Result<Vec<Source<'a, H, R>>, AllocError>
    ensures winners { IfOk result (λ sources. (tabled : List (List Entry))
        → AreOf H.bytes (tables_of levels.now) tabled → AreInOrder levels.now
        → TellWinners H.bytes everywhere Up ((active.now.entries ++ held_entries frozen.now) ++ joined tabled) sources.items) }
    ensures faults { IfOk result (λ sources. FailWithin H.bytes everywhere (tables_of levels.now) sources.items) }
    ensures reads { IfOk result (λ sources. (is_met : Entry → Bool) → SourcesStand H.bytes is_met sources.items
        → LevelsReadTo H.bytes everywhere Up is_met levels.now) }
{
    let span = Span {
        lo: None,
        hi: None,
        closed: false,
    };
    let mut sources = Vec::new(alloc);
    add_memtable(&mut sources, active, &span, Way::Up)?;
    add_frozen(&mut sources, frozen, &span, Way::Up)?;
    add_levels(alloc, &mut sources, levels, &span, Way::Up)?;
    Ok(sources)
}

// The one source of the own writes.
fn own_source<'a, H: HeldFile, R: Drop>(
    alloc: Global,
    own: &'a Writes,
    wanted: Wanted<'_>,
    number: u64,
) -> Result<Vec<Source<'a, H, R>>, AllocError>
    ensures winners { IfOk result (λ sources.
        TellWinners H.bytes (span_of wanted.entry.low.now wanted.entry.high.now) wanted.entry.way
        (own_entries number (entries own.now)) sources.items) }
    ensures quiet { IfOk result (λ sources. IsQuiet H.bytes sources.items) }
    ensures faults { IfOk result (λ sources. (span : Span) → FailWithin H.bytes span [] sources.items) }
{
    let writes = OwnCursor::within(own.as_slice(), wanted.low, wanted.high, wanted.way, number);
    let mut sources = Vec::new(alloc);
    sources.push(Source::Own(writes))?;
    Ok(sources)
}

// A memtable's runs behind the sources that there are.
fn add_memtable<'a, H: HeldFile, R: Drop>(
    sources: &mut Vec<Source<'a, H, R>>,
    memtable: &Memtable,
    span: &Span,
    way: Way,
) -> Result<(), AllocError>
    ensures winners { OnOk result (Adds H.bytes span.now way memtable.now.entries sources.old.items sources.new.items) }
    ensures quiet { OnOk result (IsQuiet H.bytes sources.old.items → IsQuiet H.bytes sources.new.items) }
    ensures faults { OnOk result ((before : List (Table H)) → FailWithin H.bytes span.now before sources.old.items
        → FailWithin H.bytes span.now before sources.new.items) }
{
    add_runs(sources, memtable.cursors_within(span, way)?)
}

fn add_runs<'a, H: HeldFile, R: Drop>(
    sources: &mut Vec<Source<'a, H, R>>,
    runs: Vec<RunCursor>,
) -> Result<(), AllocError>
    ensures { OnOk result (sources.new.items ≡ sources.old.items ++ map (λ run. source.Held run) runs.items) }
{
    for run in runs {
        sources.push(Source::Held(run))?;
    }
    Ok(())
}

// Those of frozen logs, the newest first.
fn add_frozen<'a, H: HeldFile, R: Drop>(
    sources: &mut Vec<Source<'a, H, R>>,
    frozen: &[FrozenLog],
    span: &Span,
    way: Way,
) -> Result<(), AllocError>
    ensures winners { OnOk result (Adds H.bytes span.now way (held_entries frozen.now) sources.old.items sources.new.items) }
    ensures quiet { OnOk result (IsQuiet H.bytes sources.old.items → IsQuiet H.bytes sources.new.items) }
    ensures faults { OnOk result ((before : List (Table H)) → FailWithin H.bytes span.now before sources.old.items
        → FailWithin H.bytes span.now before sources.new.items) }
{
    for log in frozen {
        add_memtable(sources, log.memtable.memtable(), span, way)?;
    }
    Ok(())
}

// The interval with these bounds, of which an empty one is none.
fn span_of(alloc: Global, low: &[u8], high: &[u8]) -> Result<Span, AllocError>
    ensures { IfOk result (λ span. span ≡ span_of low.now high.now) }
{
    Ok(Span {
        lo: bound(alloc, low)?,
        hi: bound(alloc, high)?,
        closed: false,
    })
}

fn bound(alloc: Global, bytes: &[u8]) -> Result<Option<Key>, AllocError>
    ensures { IfOk result (λ key. key ≡ bound bytes.now) }
{
    if bytes.is_empty() {
        return Ok(None);
    }
    Ok(Some(Key::copy_of(alloc, bytes)?))
}
