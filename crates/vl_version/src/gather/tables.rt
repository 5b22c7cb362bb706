//! The tables of a scan: those whose ranges meet its interval.

ghost use Rattle.std.specs.Prelude.{◌≡◌, ◌⊎◌, ◌++◌, ◌∷◌, [], List, IfOk, OnOk};
ghost use Rattle.std.specs.List.{AllZip};
ghost use Rattle.vl_model.specs.Cutting.{joined};
ghost use Rattle.vl_model.specs.declared.entry.Entry.{Entry};
ghost use Rattle.vl_table.specs.OfTables.{AreOf};
ghost use Rattle.vl_table.specs.Tables.{IsOf};
ghost use Rattle.vl_table.specs.declared.table.Table.{Table};
ghost use Rattle.vl_version.specs.Gathered.{Adds, HaveWithin};
ghost use Rattle.vl_version.specs.Naming.{AddFaults, MeetFaults};
ghost use Rattle.vl_version.specs.Standing.{AddsShown, AreStanding, IsStanding};
ghost use Rattle.vl_version.specs.Whole.{AddReads, AllReadTo, AreMet, EachReadTo, LevelsReadTo, MetReadTo};
ghost use Rattle.vl_version.specs.Whole.{AddStops, EachStops, MetStop, OneStops};
ghost use Rattle.vl_version.specs.levels.LevelTables.{AreAllApart, AreApart, all_tables};
ghost use Rattle.vl_version.specs.levels.LevelsLooked.{AreInOrder, tables_of};

use crate::levels::{Level, Levels};
use crate::source::Source;
use std::alloc::{AllocError, Global};
use vl_disk::{HeldFile, Reader};
use vl_model::{Key, Span, Way};
use vl_table::{Table, TableCursor};

/// Cursors over the tables of all levels behind the sources that there are: one for each table of level 0, and one for each
/// deeper level.
pub fn add_levels<'a, H: HeldFile, R: Reader<Held = H> + Drop>(
    alloc: Global,
    sources: &mut Vec<Source<'a, H, R>>,
    levels: &Levels<H>,
    span: &Span,
    way: Way,
) -> Result<(), AllocError>
    ensures winners { OnOk result ((tabled : List (List Entry)) → AreOf H.bytes (tables_of levels.now) tabled
        → AreInOrder levels.now → Adds H.bytes span.now way (joined tabled) sources.old.items sources.new.items) }
    ensures quiet { OnOk result (tables_of levels.now ≡ [] → sources.new.items ≡ sources.old.items) }
    ensures faults { OnOk result (AddFaults H.bytes span.now (tables_of levels.now) sources.old.items sources.new.items) }
    ensures reads { OnOk result (AddReads H.bytes (λ is_met. LevelsReadTo H.bytes span.now way is_met levels.now)
        sources.old.items sources.new.items) }
    ensures standing { OnOk result ((tabled : List (List Entry)) → AreStanding H.bytes span.now way levels.now tabled
        → AddsShown H.bytes span.now way (joined tabled) sources.old.items sources.new.items) }
    ensures stops { OnOk result (AddStops H.bytes (λ fault. EachStops H.bytes span.now way fault levels.now.newest.items
        ⊎ OneStops H.bytes span.now way fault levels.now.deeper.items)
        sources.old.items sources.new.items) }
{
    add_newest(alloc, sources, levels.newest(), span, way)?;
    add_deeper(alloc, sources, levels.deeper(), span, way)
}

// One for each of these tables.
fn add_newest<'a, H: HeldFile, R: Reader<Held = H> + Drop>(
    alloc: Global,
    sources: &mut Vec<Source<'a, H, R>>,
    tables: &[Table<H>],
    span: &Span,
    way: Way,
) -> Result<(), AllocError>
    ensures winners { OnOk result ((tabled : List (List Entry)) → AreOf H.bytes tables.now tabled
        → Adds H.bytes span.now way (joined tabled) sources.old.items sources.new.items) }
    ensures quiet { OnOk result (tables.now ≡ [] → sources.new.items ≡ sources.old.items) }
    ensures faults { OnOk result (AddFaults H.bytes span.now tables.now sources.old.items sources.new.items) }
    ensures reads { OnOk result (AddReads H.bytes (λ is_met. EachReadTo H.bytes span.now way is_met tables.now)
        sources.old.items sources.new.items) }
    ensures standing { OnOk result ((tabled : List (List Entry))
        → AllZip (λ t es. IsStanding H.bytes span.now way (t ∷ []) es) tables.now tabled
        → AddsShown H.bytes span.now way (joined tabled) sources.old.items sources.new.items) }
    ensures stops { OnOk result (AddStops H.bytes (λ fault. EachStops H.bytes span.now way fault tables.now)
        sources.old.items sources.new.items) }
{
    for at in 0..tables.len() {
        add_tables(alloc, sources, &tables[at..at + 1], span, way)?;
    }
    Ok(())
}

// One for each of these levels.
fn add_deeper<'a, H: HeldFile, R: Reader<Held = H> + Drop>(
    alloc: Global,
    sources: &mut Vec<Source<'a, H, R>>,
    levels: &[Level<H>],
    span: &Span,
    way: Way,
) -> Result<(), AllocError>
    ensures winners { OnOk result ((tabled : List (List Entry)) → AreOf H.bytes (all_tables levels.now) tabled
        → AreAllApart levels.now → Adds H.bytes span.now way (joined tabled) sources.old.items sources.new.items) }
    ensures quiet { OnOk result (all_tables levels.now ≡ [] → sources.new.items ≡ sources.old.items) }
    ensures faults { OnOk result (AddFaults H.bytes span.now (all_tables levels.now) sources.old.items sources.new.items) }
    ensures reads { OnOk result (AddReads H.bytes (λ is_met. AllReadTo H.bytes span.now way is_met levels.now)
        sources.old.items sources.new.items) }
    ensures standing { OnOk result ((tabled : List (List Entry)) → AllZip (IsStanding H.bytes span.now way) levels.now tabled
        → AddsShown H.bytes span.now way (joined tabled) sources.old.items sources.new.items) }
    ensures stops { OnOk result (AddStops H.bytes (λ fault. OneStops H.bytes span.now way fault levels.now)
        sources.old.items sources.new.items) }
{
    for level in levels {
        add_tables(alloc, sources, level.as_slice(), span, way)?;
    }
    Ok(())
}

// One over those of these tables whose ranges meet the interval, if there are any.
fn add_tables<'a, H: HeldFile, R: Reader<Held = H> + Drop>(
    alloc: Global,
    sources: &mut Vec<Source<'a, H, R>>,
    tables: &[Table<H>],
    span: &Span,
    way: Way,
) -> Result<(), AllocError>
    ensures winners { OnOk result ((tabled : List (List Entry)) → AreOf H.bytes tables.now tabled → AreApart tables.now
        → Adds H.bytes span.now way (joined tabled) sources.old.items sources.new.items) }
    ensures quiet { OnOk result (tables.now ≡ [] → sources.new.items ≡ sources.old.items) }
    ensures faults { OnOk result (AddFaults H.bytes span.now tables.now sources.old.items sources.new.items) }
    ensures reads { OnOk result (AddReads H.bytes (λ is_met. MetReadTo H.bytes span.now way is_met tables.now)
        sources.old.items sources.new.items) }
    ensures standing { OnOk result ((es : List Entry) → IsStanding H.bytes span.now way tables.now es
        → AddsShown H.bytes span.now way es sources.old.items sources.new.items) }
    ensures stops { OnOk result (AddStops H.bytes (λ fault. MetStop H.bytes span.now way fault tables.now)
        sources.old.items sources.new.items) }
{
    let met = meeting(alloc, tables, span)?;
    if met.is_empty() {
        return Ok(());
    }
    let cursor = TableCursor::new(alloc, met, share_span(span)?, way)?;
    sources.push(Source::Tables(cursor))?;
    Ok(())
}

// Those of these tables whose ranges meet the interval, shared.
fn meeting<H: HeldFile>(
    alloc: Global,
    tables: &[Table<H>],
    span: &Span,
) -> Result<Vec<Table<H>>, AllocError>
    ensures have { IfOk result (λ met. (tabled : List (List Entry)) → AreOf H.bytes tables.now tabled
        → HaveWithin H.bytes span.now (joined tabled) met.items) }
    ensures none { IfOk result (λ met. tables.now ≡ [] → met.items ≡ []) }
    ensures faults { IfOk result (λ met. MeetFaults H.bytes span.now tables.now met.items) }
    ensures copies { IfOk result (λ met. AreMet H.bytes span.now tables.now met.items) }
{
    let mut met = Vec::new(alloc);
    for table in tables {
        add_if_met(&mut met, table, span)?;
    }
    Ok(met)
}

// A table behind others that meet the interval, if it does so itself.
fn add_if_met<H: HeldFile>(
    met: &mut Vec<Table<H>>,
    table: &Table<H>,
    span: &Span,
) -> Result<(), AllocError>
    ensures have { OnOk result ((es fs : List Entry) → HaveWithin H.bytes span.now es met.old.items → IsOf H.bytes table.now fs
        → HaveWithin H.bytes span.now (es ++ fs) met.new.items) }
    ensures faults { OnOk result ((before : List (Table H)) → MeetFaults H.bytes span.now before met.old.items
        → MeetFaults H.bytes span.now (before ++ table.now ∷ []) met.new.items) }
    ensures copies { OnOk result ((before : List (Table H)) → AreMet H.bytes span.now before met.old.items
        → AreMet H.bytes span.now (before ++ table.now ∷ []) met.new.items) }
{
    if !table.meets(span) {
        return Ok(());
    }
    met.push(table.share()?)?;
    Ok(())
}

fn share_span(span: &Span) -> Result<Span, AllocError>
    ensures { IfOk result (λ shared. shared ≡ span.now) }
{
    Ok(Span {
        lo: share_bound(&span.lo)?,
        hi: share_bound(&span.hi)?,
        closed: span.closed,
    })
}

fn share_bound(bound: &Option<Key>) -> Result<Option<Key>, AllocError>
    ensures { IfOk result (λ shared. shared ≡ bound.now) }
{
    match bound {
        Some(key) => Ok(Some(key.share()?)),
        None => Ok(None),
    }
}
